//! What sets of rules are read as. A row is a value, and after ` is` the rules of its set `r`.
use crate::reading::rules_of;
use access_rules::{Action, Rule, Sessions};
use ion_values::Text;
use std::alloc::Global;

/// Sets that are read.
pub(crate) const GOOD: &str = r#"{r:[]} is
{s:[],r:[],t:[]} is
{r:[{rule:"x",effect:allow,actions:[PartiQLSelect],tables:["t"]}]} is x allow PartiQLSelect on t;
{r:[{sessions:[1],tables:["t"],actions:[PartiQLSelect],effect:allow,rule:"x"}]} is x allow PartiQLSelect on t in 1;
{r:[{rule:"x",effect:deny,actions:[],tables:[],sessions:[]}]} is x deny on in;
{r:[{rule:"",effect:allow,actions:[PartiQLSelect,PartiQLSelect],tables:["t","t",""],sessions:[1,1,1024]}]} is  allow PartiQLSelect PartiQLSelect on t t  in 1 1 1024;
{r:[{rule:"x",effect:allow,actions:[],tables:["t"]},{rule:"x",effect:deny,actions:[],tables:["*"]}]} is x allow on t; x deny on *;
{'r' : [{"rule":'''x''',effect:'allow',actions:['PartiQLSelect'],tables:["t"]}], /* s */ s:[]} is x allow PartiQLSelect on t;
{r:[{rule:"all",effect:allow,actions:[PartiQLSelect,PartiQLInsert,PartiQLUpdate,PartiQLDelete,PartiQLCreateTable,PartiQLCreateIndex,PartiQLDropTable,PartiQLHistoryFunction,PartiQLRedact],tables:["*"]}]} is all allow PartiQLSelect PartiQLInsert PartiQLUpdate PartiQLDelete PartiQLCreateTable PartiQLCreateIndex PartiQLDropTable PartiQLHistoryFunction PartiQLRedact on *;
{a:[{rule:"y",effect:deny,actions:[],tables:[]}],r:[{rule:"x",effect:allow,actions:[],tables:[]}],R:[]} is x allow on;"#;

fn put_actions(out: &mut String, actions: &[Action]) -> Option<()> {
    for action in actions {
        out.push(' ').ok()?;
        out.push_str(action.name()).ok()?;
    }
    Some(())
}

fn put_tables(out: &mut String, tables: &[Text]) -> Option<()> {
    for table in tables {
        out.push(' ').ok()?;
        out.push_str(table.as_str()).ok()?;
    }
    Some(())
}

fn put_sessions(alloc: Global, out: &mut String, sessions: &Option<Sessions>) -> Option<()> {
    let Some(sessions) = sessions else {
        return Some(());
    };
    out.push_str(" in").ok()?;
    for session in sessions.as_slice() {
        put_number(alloc, out, *session)?;
    }
    Some(())
}

fn put_number(alloc: Global, out: &mut String, number: u32) -> Option<()> {
    let text = format!(in alloc; " {number}").ok()?;
    out.push_str(text.as_str()).ok()
}

fn put_rule(alloc: Global, out: &mut String, rule: &Rule) -> Option<()> {
    out.push(' ').ok()?;
    out.push_str(rule.rule.as_str()).ok()?;
    let effect = if rule.allow { " allow" } else { " deny" };
    out.push_str(effect).ok()?;
    put_actions(out, rule.actions.as_slice())?;
    out.push_str(" on").ok()?;
    put_tables(out, rule.tables.as_slice())?;
    put_sessions(alloc, out, &rule.sessions)?;
    out.push(';').ok()
}

fn put_rules(alloc: Global, out: &mut String, rules: &[Rule]) -> Option<()> {
    for rule in rules {
        put_rule(alloc, out, rule)?;
    }
    Some(())
}

/// The rules of the set `r`, each after a space.
pub(crate) fn read(alloc: Global, text: &str) -> Option<String> {
    let rules = rules_of(alloc, text)?;
    let mut out = String::new(alloc);
    put_rules(alloc, &mut out, rules.as_slice())?;
    Some(out)
}
