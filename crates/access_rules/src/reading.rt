//! Named sets of rules, read from a value.
ghost use Rattle.std.specs.Prelude.{◌≡◌, codes, if◌then◌else◌};
ghost use Rattle.std.specs.List.{find, list_all};
ghost use Rattle.std.specs.Str.{bytes_eq};
ghost use Rattle.ledger_model.specs.ReadScript.{named};
ghost use Rattle.ledger_model.specs.Script.{each};
ghost use Rattle.ledger_model.specs.Values.{string_in};
ghost use Rattle.access_rules.specs.Actions.{action_name, action_of};
ghost use Rattle.access_rules.specs.Answers.{Gives, Reads};
ghost use Rattle.access_rules.specs.ReadRules as spec;

use crate::fields::has_unknown;
use crate::rule::{Action, Actions, Rule, Rules, RulesAnswer, Sessions};
use containers::{Sequence, Text};
use ion_values::{Field, Names, Value};
use ledger_model::{fields_in, int_in, list_in, repeats, string_in, symbol_in, value_named};
use std::alloc::Global;

/// The rules of the set of that name.
///
/// The value is a struct in which no name stands twice, and each of its fields a list of rules, the set
/// of that name. A rule is a struct of `rule`, its name, a string; `effect`, the symbol `allow` or
/// `deny`; `actions`, a list of the names of actions, symbols; `tables`, a list of the names of tables,
/// strings; and `sessions`, a list of ints from 1 to 1,024, which may be left out. No value has annotations.
///
/// # Errors
///
/// `BadRules` if the value isn't such a struct, be it for another set, and `NoSuchRules` if it is one and
/// has no set of that name.
pub fn read_rules(alloc: Global, v: &Value, name: &str) -> Result<Rules, RulesAnswer>
    ensures { Gives result (spec.read_rules name.now v.now) }
{
    let Some(fields) = fields_in(v) else {
        return Err(RulesAnswer::BadRules);
    };
    let rules = read_sets(alloc, fields.as_slice(), name)?;
    Ok(rules)
}

fn read_sets(alloc: Global, fields: &[Field], name: &str) -> Result<Rules, RulesAnswer>
    ensures { Gives result (spec.read_sets name.now fields.now) }
{
    if repeats(alloc, fields)? {
        return Err(RulesAnswer::BadRules);
    }
    match chosen(alloc, fields, name)? {
        Some(rules) => Ok(rules),
        None => Err(RulesAnswer::NoSuchRules),
    }
}

/// The first set of that name, if there is one. Each set is read.
fn chosen(alloc: Global, fields: &[Field], name: &str) -> Result<Option<Rules>, RulesAnswer>
    ensures { Reads result
        (if list_all spec.is_set fields.now then Some (spec.said spec.rules_in name.now fields.now) else None) }
{
    let mut found = None;
    'sets: for field in fields {
        let rules = rules_in(alloc, &field.value)?;
        if found.is_none() && field.name.as_str() == name {
            found = Some(rules);
        }
    }
    Ok(found)
}

/// The rules of a set.
fn rules_in(alloc: Global, v: &Value) -> Result<Rules, RulesAnswer>
    ensures { Reads result (spec.rules_in v.now) }
{
    let members = list_in(v).ok_or(RulesAnswer::BadRules)?;
    let rules = rules_of(alloc, members.as_slice())?;
    Ok(rules)
}

fn rules_of(alloc: Global, members: &[Value]) -> Result<Rules, RulesAnswer>
    ensures { Reads result (each spec.rule_in members.now) }
{
    let mut rules = Sequence::new(alloc);
    'rules: for member in members {
        let rule = rule_in(alloc, member)?;
        rules.push(rule)?;
    }
    Ok(rules)
}

/// The rule that a value spells.
fn rule_in(alloc: Global, v: &Value) -> Result<Rule, RulesAnswer>
    ensures { Reads result (spec.rule_in v.now) }
{
    let fields = fields_in(v).ok_or(RulesAnswer::BadRules)?.as_slice();
    if repeats(alloc, fields)? || has_unknown(fields) {
        return Err(RulesAnswer::BadRules);
    }
    let rule = rule_said(alloc, fields)?;
    Ok(rule)
}

/// What the fields of a rule say.
fn rule_said(alloc: Global, fields: &[Field]) -> Result<Rule, RulesAnswer>
    ensures { Reads result (spec.rule_said fields.now) }
{
    let rule = text_said(alloc, fields)?;
    let allow = effect_said(fields)?;
    let actions = actions_said(alloc, fields)?;
    let tables = tables_said(alloc, fields)?;
    let sessions = sessions_said(alloc, fields)?;
    Ok(Rule {
        rule,
        allow,
        actions,
        tables,
        sessions,
    })
}

/// The name of the rule.
fn text_said(alloc: Global, fields: &[Field]) -> Result<Text, RulesAnswer>
    ensures { Reads result (spec.said string_in (codes "rule") fields.now) }
{
    let value = value_named("rule", fields).ok_or(RulesAnswer::BadRules)?;
    let text = string_in(value).ok_or(RulesAnswer::BadRules)?;
    Ok(text.copy(alloc)?)
}

/// Whether the rule allows.
fn effect_said(fields: &[Field]) -> Result<bool, RulesAnswer>
    ensures { Reads result (spec.said spec.effect_in (codes "effect") fields.now) }
{
    let value = value_named("effect", fields).ok_or(RulesAnswer::BadRules)?;
    effect_in(value).ok_or(RulesAnswer::BadRules)
}

fn effect_in(v: &Value) -> Option<bool>
    ensures { result ≡ spec.effect_in v.now }
{
    match symbol_in(v)?.as_str() {
        "allow" => Some(true),
        "deny" => Some(false),
        _ => None,
    }
}

fn actions_said(alloc: Global, fields: &[Field]) -> Result<Actions, RulesAnswer>
    ensures { Reads result (spec.said spec.actions_in (codes "actions") fields.now) }
{
    let value = value_named("actions", fields).ok_or(RulesAnswer::BadRules)?;
    let members = list_in(value).ok_or(RulesAnswer::BadRules)?;
    let actions = actions_of(alloc, members.as_slice())?;
    Ok(actions)
}

fn actions_of(alloc: Global, members: &[Value]) -> Result<Actions, RulesAnswer>
    ensures { Reads result (each spec.action_in members.now) }
{
    let mut actions = Sequence::new(alloc);
    'actions: for member in members {
        let action = action_in(member).ok_or(RulesAnswer::BadRules)?;
        actions.push(action)?;
    }
    Ok(actions)
}

fn action_in(v: &Value) -> Option<Action>
    ensures { result ≡ spec.action_in v.now }
{
    action_of(symbol_in(v)?.as_str())
}

/// The action of that name.
fn action_of(name: &str) -> Option<Action>
    ensures { result ≡ action_of name.now }
{
    action_among(&Action::ALL, name)
}

/// The first of these actions that has the name.
fn action_among(actions: &[Action], name: &str) -> Option<Action>
    ensures { result ≡ find (λ a. bytes_eq (action_name a) name.now) actions.now }
{
    'actions: for action in actions {
        if action.name() == name {
            return Some(*action);
        }
    }
    None
}

fn tables_said(alloc: Global, fields: &[Field]) -> Result<Names, RulesAnswer>
    ensures { Reads result (spec.said spec.tables_in (codes "tables") fields.now) }
{
    let value = value_named("tables", fields).ok_or(RulesAnswer::BadRules)?;
    let members = list_in(value).ok_or(RulesAnswer::BadRules)?;
    let tables = tables_of(alloc, members.as_slice())?;
    Ok(tables)
}

fn tables_of(alloc: Global, members: &[Value]) -> Result<Names, RulesAnswer>
    ensures { Reads result (each string_in members.now) }
{
    let mut tables = Sequence::new(alloc);
    'tables: for member in members {
        let table = string_in(member).ok_or(RulesAnswer::BadRules)?;
        tables.push(table.copy(alloc)?)?;
    }
    Ok(tables)
}

/// The sessions that the rule is for, and None if it is for all.
fn sessions_said(alloc: Global, fields: &[Field]) -> Result<Option<Sessions>, RulesAnswer>
    ensures { Reads result (spec.sessions_said (named (codes "sessions") fields.now)) }
{
    let Some(value) = value_named("sessions", fields) else {
        return Ok(None);
    };
    let members = list_in(value).ok_or(RulesAnswer::BadRules)?;
    let sessions = sessions_of(alloc, members.as_slice())?;
    Ok(Some(sessions))
}

fn sessions_of(alloc: Global, members: &[Value]) -> Result<Sessions, RulesAnswer>
    ensures { Reads result (each spec.session_in members.now) }
{
    let mut sessions = Sequence::new(alloc);
    'sessions: for member in members {
        let session = session_in(member).ok_or(RulesAnswer::BadRules)?;
        sessions.push(session)?;
    }
    Ok(sessions)
}

fn session_in(v: &Value) -> Option<u32>
    ensures { result ≡ spec.session_in v.now }
{
    session_of(int_in(v)?)
}

fn session_of(number: i128) -> Option<u32>
    ensures { result ≡ spec.session_of number }
{
    if 1 <= number && number <= 1024 {
        Some(number as u32)
    } else {
        None
    }
}
