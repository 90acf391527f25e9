//! How decisions are written.

ghost use Rattle.std.specs.Prelude.{◌≡◌, ◌++◌, string_bytes, IfOk, OnOk};
ghost use Rattle.operator_lines.specs.AnswerTexts as texts;

use crate::decision::Decision;
use crate::text::{Item, add_flag, add_items, add_number};
use role_sessions::Verdict;
use std::alloc::{AllocError, Global};

/// The text of a decision.
pub fn decision_text(alloc: Global, at: u32, decision: &Decision) -> Result<String, AllocError>
    ensures { IfOk result (λ text. string_bytes text ≡ texts.decision_text at decision.now) }
{
    let mut text = String::new(alloc);
    add_flag(&mut text, "{\"allow\":", allows(&decision.verdict))?;
    add_number(&mut text, ",\"at\":", u64::from(at))?;
    add_reach(&mut text, decision)?;
    Ok(text)
}

/// The text of several decisions.
pub fn decisions_text(alloc: Global, at: u32, decisions: &[Decision]) -> Result<String, AllocError>
    ensures { IfOk result (λ text. string_bytes text ≡ texts.decisions_text at decisions.now) }
{
    let mut text = String::new(alloc);
    add_number(&mut text, "{\"at\":", u64::from(at))?;
    text.push_str(",\"decisions\":[")?;
    add_items(&mut text, decisions)?;
    text.push_str("]}")?;
    Ok(text)
}

impl Item for Decision {
    ghost written = { texts.among_text };

    fn add_to(&self, text: &mut String) -> Result<(), AllocError> {
        add_flag(text, "{\"allow\":", allows(&self.verdict))?;
        add_reach(text, self)
    }
}

fn allows(verdict: &Verdict) -> bool
    ensures { result ≡ texts.allows verdict.now }
{
    match verdict {
        Verdict::Allow(_) => true,
        Verdict::Deny(_) => false,
    }
}

/// Adds how far the owner's stream reached, and what follows from it.
fn add_reach(text: &mut String, decision: &Decision) -> Result<(), AllocError>
    ensures { OnOk result (string_bytes text.new ≡ string_bytes text.old ++ texts.reach_text decision.now) }
{
    add_number(text, ",\"reach\":", u64::from(decision.reach))?;
    add_verdict(text, &decision.verdict)
}

/// Adds the role in which is allowed, or the rule that denies.
fn add_verdict(text: &mut String, verdict: &Verdict) -> Result<(), AllocError>
    ensures { OnOk result (string_bytes text.new ≡ string_bytes text.old ++ texts.verdict_text verdict.now) }
{
    match verdict {
        Verdict::Allow(role) => {
            add_number(text, ",\"role\":", u64::from(*role))?;
            text.push_str("}")
        }
        Verdict::Deny(rule) => {
            text.push_str(",\"rule\":\"")?;
            text.push_str(rule.code())?;
            text.push_str("\"}")
        }
    }
}
