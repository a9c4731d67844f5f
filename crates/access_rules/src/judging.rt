//! Whether rules allow what is demanded.
ghost use Rattle.std.specs.Prelude.{◌≡◌, ◌==◌, IfOk};
ghost use Rattle.std.specs.List.{find, list_any};
ghost use Rattle.std.specs.Option.{option_copied};
ghost use Rattle.access_rules.specs.Permission as spec;

use crate::demand::{Demand, Demands, Verdict};
use crate::rule::{Action, Rule, Rules, Sessions};
use containers::Text;
use ion_values::OutOfMemory;
use std::alloc::Global;

/// Whether the rules allow a session all of the demands, or the first one that they deny.
///
/// A rule meets a demand if it names its action, its table or `*`, and the session or none. The first
/// deny rule that meets the demand denies it. If there is none, an allow rule that meets it allows it.
/// Else it is denied by no rule.
pub fn judge(
    alloc: Global,
    rules: &Rules,
    session: u32,
    demands: &Demands,
) -> Result<Verdict, OutOfMemory>
    ensures { IfOk result (λ verdict. verdict ≡ spec.verdict rules.now session demands.now) }
{
    'demands: for demand in demands.as_slice() {
        match judge_one(alloc, rules.as_slice(), session, demand)? {
            Verdict::Allowed => {}
            Verdict::Denied { demand, rule } => return Ok(Verdict::Denied { demand, rule }),
        }
    }
    Ok(Verdict::Allowed)
}

fn judge_one(
    alloc: Global,
    rules: &[Rule],
    session: u32,
    demand: &Demand,
) -> Result<Verdict, OutOfMemory>
    ensures { IfOk result (λ verdict. verdict ≡ spec.judged rules.now session demand.now) }
{
    if let Some(rule) = first_denying(rules, session, demand) {
        return denied(alloc, demand, Some(rule.rule.copy(alloc)?));
    }
    if any_allows(rules, session, demand) {
        return Ok(Verdict::Allowed);
    }
    denied(alloc, demand, None)
}

fn denied(alloc: Global, demand: &Demand, rule: Option<Text>) -> Result<Verdict, OutOfMemory>
    ensures { IfOk result (λ verdict. verdict ≡ Verdict.Denied demand.now rule) }
{
    let demand = Demand {
        action: demand.action,
        table: demand.table.copy(alloc)?,
    };
    Ok(Verdict::Denied { demand, rule })
}

/// The first deny rule that meets the demand.
fn first_denying<'a>(rules: &'a [Rule], session: u32, demand: &Demand) -> Option<&'a Rule>
    ensures { option_copied result ≡ find (spec.denies session demand.now) rules.now }
{
    'rules: for rule in rules {
        if !rule.allow && meets(session, demand, rule) {
            return Some(rule);
        }
    }
    None
}

/// Whether an allow rule meets the demand.
fn any_allows(rules: &[Rule], session: u32, demand: &Demand) -> bool
    ensures { result ≡ list_any (spec.allows session demand.now) rules.now }
{
    'rules: for rule in rules {
        if rule.allow && meets(session, demand, rule) {
            return true;
        }
    }
    false
}

fn meets(session: u32, demand: &Demand, rule: &Rule) -> bool
    ensures { result ≡ spec.meets session demand.now rule.now }
{
    names_action(rule.actions.as_slice(), demand.action)
        && names_table(rule.tables.as_slice(), demand.table.as_str())
        && names_session(&rule.sessions, session)
}

fn names_action(named: &[Action], action: Action) -> bool
    ensures { result ≡ spec.names_action named.now action }
{
    'actions: for other in named {
        if *other == action {
            return true;
        }
    }
    false
}

fn names_table(named: &[Text], table: &str) -> bool
    ensures { result ≡ spec.names_table named.now table.now }
{
    'tables: for other in named {
        if other.as_str() == table || other.as_str() == "*" {
            return true;
        }
    }
    false
}

fn names_session(named: &Option<Sessions>, session: u32) -> bool
    ensures { result ≡ spec.names_session named.now session }
{
    match named {
        None => true,
        Some(sessions) => is_among(sessions.as_slice(), session),
    }
}

fn is_among(sessions: &[u32], session: u32) -> bool
    ensures { result ≡ list_any (λ other. other == session) sessions.now }
{
    'sessions: for other in sessions {
        if *other == session {
            return true;
        }
    }
    false
}
