//! The script that an input spells.
ghost use Rattle.std.specs.Prelude.{◌≡◌, drop, IfOk};
ghost use Rattle.std.specs.List.{All};
ghost use Rattle.access_rules.specs.Answers.{Gives};
ghost use Rattle.access_rules.specs.Scripts.{script_under};
ghost use Rattle.cli_model.specs.Judging.{judged, judged_behind, judged_script, judged_under, judged_values, scripted};
ghost use Rattle.ledger_model.specs.ReadScript.{read_script};
ghost use Rattle.script_form.specs.Answers.{IsCountable};
ghost use Rattle.ledger_shared.specs.Sessions.{AreNumbered};
ghost use Rattle.ledger_cli.specs.Judgements.{JudgesTo, rules_in_front};
ghost use Rattle.ledger_cli.specs.Stops.{rules_stop};

use crate::command_fault::CommandFault;
use crate::input::LONGEST;
use crate::lines::BadInput;
use access_rules::{Rules, RulesAnswer, read_rules, script_under};
use containers::Sequence;
use ion_text::{ReadFault, read_stream};
use ion_values::{OutOfMemory, Text, Value, Values};
use ledger_model::{Script, ScriptFault};
use script_form::{ScriptAnswer, read_script};
use std::alloc::Global;

/// The deepest nesting of an input.
pub const DEEPEST: u32 = 80;

/// The script that the values of an input spell, under no rules.
fn judge_script(alloc: Global, values: Values) -> Result<Script, CommandFault>
    requires { All IsCountable values }
    ensures judged { JudgesTo result (judged_script (read_script values)) }
    ensures numbered { IfOk result AreNumbered }
{
    match read_script(alloc, values) {
        Ok(script) => Ok(script),
        Err(
            ScriptAnswer::Fault {
                session,
                transaction,
                kind,
            },
        ) => Err(CommandFault::BadInput(BadInput::Misspelt(ScriptFault {
            session,
            transaction,
            kind,
        }))),
        Err(ScriptAnswer::OutOfMemory) => Err(CommandFault::OutOfMemory),
    }
}

/// The values behind the first one.
fn behind_first(values: Values) -> Values
    ensures { result ≡ drop 1 values }
{
    let mut values = values.into_vec();
    if values.is_empty() {
        return Sequence::from_vec(values);
    }
    let _first = values.remove(0);
    Sequence::from_vec(values)
}

/// The script under these rules.
fn put_under(alloc: Global, rules: &Rules, script: Script) -> Result<Script, CommandFault>
    requires { AreNumbered script }
    ensures under { JudgesTo result (scripted (script_under rules.now script)) }
    ensures numbered { IfOk result AreNumbered }
{
    match script_under(alloc, rules, script) {
        Ok(script) => Ok(script),
        Err(OutOfMemory) => Err(CommandFault::OutOfMemory),
    }
}

/// The script that values spell, under these rules.
fn judge_under(alloc: Global, rules: &Rules, values: Values) -> Result<Script, CommandFault>
    requires { All IsCountable values }
    ensures judged { JudgesTo result (judged_under rules.now (read_script values)) }
    ensures numbered { IfOk result AreNumbered }
{
    match judge_script(alloc, values) {
        Ok(script) => put_under(alloc, rules, script),
        Err(why) => Err(why),
    }
}

/// The rules of that name that the first value holds.
fn rules_in_front(alloc: Global, values: &[Value], name: &str) -> Result<Rules, RulesAnswer>
    ensures { Gives result (rules_in_front name.now values.now) }
{
    match values.first() {
        Some(value) => read_rules(alloc, value, name),
        None => Err(RulesAnswer::BadRules),
    }
}

/// Why there is no script if there are no rules.
fn rules_stop(why: RulesAnswer) -> CommandFault
    ensures { result ≡ rules_stop why }
{
    match why {
        RulesAnswer::BadRules => CommandFault::BadInput(BadInput::BadRules),
        RulesAnswer::NoSuchRules => CommandFault::BadInput(BadInput::NoSuchRules),
        RulesAnswer::OutOfMemory => CommandFault::OutOfMemory,
    }
}

/// The script that the values behind the first one spell, under the rules of that name that the first one holds.
fn judge_behind(alloc: Global, name: &str, values: Values) -> Result<Script, CommandFault>
    requires { All IsCountable values }
    ensures judged { JudgesTo result (judged_behind name.now values) }
    ensures numbered { IfOk result AreNumbered }
{
    match rules_in_front(alloc, values.as_slice(), name) {
        Ok(rules) => judge_under(alloc, &rules, behind_first(values)),
        Err(why) => Err(rules_stop(why)),
    }
}

/// The script that the values of an input spell, under the rules of that name if one is given.
fn judge_values(alloc: Global, rules: &Option<Text>, values: Values) -> Result<Script, CommandFault>
    requires { All IsCountable values }
    ensures judged { JudgesTo result (judged_values rules.now values) }
    ensures numbered { IfOk result AreNumbered }
{
    match rules {
        Some(name) => judge_behind(alloc, name.as_str(), values),
        None => judge_script(alloc, values),
    }
}

/// The script that an input spells, under the rules of that name if one is given.
pub fn judge(alloc: Global, rules: &Option<Text>, input: &[u8]) -> Result<Script, CommandFault>
    ensures judged { JudgesTo result (judged rules.now input.now) }
    ensures numbered { IfOk result AreNumbered }
{
    if input.len() > LONGEST {
        return Err(CommandFault::BadInput(BadInput::TooLong));
    }
    match read_stream(alloc, input, DEEPEST) {
        Ok(values) => judge_values(alloc, rules, values),
        Err(ReadFault::Ion(fault)) => Err(CommandFault::BadInput(BadInput::Faulty(fault))),
        Err(ReadFault::OutOfMemory) => Err(CommandFault::OutOfMemory),
    }
}
