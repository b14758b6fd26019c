//! Scripts of faults, as a table writes them.
ghost use Rattle.std.specs.Prelude.{◌≡◌, IfOk, IsSome};
ghost use Rattle.cu_mem.specs.Script.{LandsOnce};

use anyhow::{Result, bail};
use cu_mem::{CallKind, Rule, Script};
use serde_json::Value;
use test_rows::{Said, key_of, refuse_others};

/// The script of these rules, by which each call after so many fails too.
pub(crate) fn script_of(rules: &[Value], stop_after: Option<u64>) -> Result<Script>
    ensures { IfOk result (λ script. LandsOnce script.rules.items) }
{
    let mut script = with_rules(Script::none(), rules)?;
    script.stop_after = stop_after;
    Ok(script)
}

/// A script with these rules behind its own.
fn with_rules(script: Script, rules: &[Value]) -> Result<Script>
    requires { LandsOnce script.rules.items }
    ensures { IfOk result (λ made. LandsOnce made.rules.items) }
{
    let [first, rest @ ..] = rules else {
        return Ok(script);
    };
    let rule = rule_of(first)?;
    let mut script = script;
    if script.rules.is_full() {
        bail!("a script has at most 8 rules");
    }
    script.rules.push(rule);
    with_rules(script, rest)
}

/// A rule, as `{"call":"put","key":"y/c/0","skip":0,"times":1,"land":3}`. Without a key it is on each key, it skips 0 calls
/// and lets 1 fail where it doesn't say so, and a put that fails lands only where `land` says after how many calls.
fn rule_of(value: &Value) -> Result<Rule>
    ensures { IfOk result (λ rule. IsSome rule.land → rule.times ≡ 1) }
{
    refuse_others(value, &["call", "key", "skip", "times", "land"])?;
    let said = Said {
        row: value,
        case: value,
        shared: value,
    };
    let key = match said.member("key") {
        None => None,
        Some(_) => Some(key_of(said.text("key")?)?),
    };
    let skip = small(said.number("skip")?.unwrap_or(0))?;
    let times = small(said.number("times")?.unwrap_or(1))?;
    let land = match said.number("land")? {
        None => None,
        Some(_) if times != 1 => bail!("a put that lands late fails once"),
        Some(land) => Some(small(land)?),
    };
    Ok(Rule {
        call: kind_of(said.text("call")?)?,
        key,
        skip,
        times,
        land,
    })
}

/// The kind of a call by its name.
fn kind_of(name: &str) -> Result<CallKind> {
    match name {
        "get" => Ok(CallKind::Get),
        "has" => Ok(CallKind::Has),
        "put" => Ok(CallKind::Put),
        "remove" => Ok(CallKind::Remove),
        _ => bail!("{name} is no call of a depot"),
    }
}

/// A small number.
pub(crate) fn small(number: u64) -> Result<u32> {
    match u32::try_from(number) {
        Ok(small) => Ok(small),
        Err(_) => bail!("{number} is too large"),
    }
}
