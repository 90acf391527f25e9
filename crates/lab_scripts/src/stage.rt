//! What is kept of the lines of a script, and the answer to the next line.

ghost use Rattle.std.specs.Prelude.{◌≡◌, ◌≤◌, false, List, length, IfOk, OnOk, option_map, string_bytes};
ghost use Rattle.quorum_sizes.specs.Sizes.{AreSizes};
ghost use Rattle.role_commands.specs.TableFaults.{add_due};
ghost use Rattle.bracha_instance.specs.Broadcast.{Take};
ghost use Rattle.bracha_instance.specs.States.{state};
ghost use Rattle.bracha_instance.specs.Taking.{SendsAreFrom};
ghost use Rattle.byz_world.specs.Worlds.{too_many_lie};
ghost use Rattle.lab_scripts.specs.Grammar.{owner};
ghost use Rattle.lab_scripts.specs.Labs.{lab_sizes};
ghost use Rattle.lab_scripts.specs.inside.Kept.{lab_in};
ghost use Rattle.lab_scripts.specs.OrderTexts as texts;
ghost use Rattle.lab_scripts.specs.Scripts.{Script, most_line_bytes, next, after_line, table_after, one_too_many};
ghost use Rattle.lab_scripts.specs.Scripts.{liars_after, after_setup, after_cluster_line, Unread, OfInstance, OfSetup};
ghost use Rattle.lab_scripts.specs.Stages.{Follows, Answers, StageAnswers};

use crate::grammar::{sizes_of_line, take_of_line};
use crate::lab::Lab;
use crate::order_texts::{liar_text, role_text};
use crate::orders::{SetupLine, cluster_of_line, order_of_line, setup_of_line};
use crate::texts::{outcome_text, sizes_text};
use bracha_instance::Instance;
use quorum_sizes::{NodeName, NodeSet, Sizes};
use role_commands::{RoleTable, TableFault};
use std::alloc::{AllocError, Global};
use std::str;

/// What the lines so far have made.
#[derive(Drop)]
pub enum Stage {
    /// No line was read.
    Start,
    /// An instance among so many nodes.
    Running { sizes: Sizes, instance: Instance },
    /// The roles of a cluster, and the nodes that lie.
    Setting { roles: RoleTable, liars: NodeSet },
    /// A cluster in which something happened.
    Living(Lab),
}

/// Takes the next line, which is not too long. The text is what is due for the line; there is none where the
/// line is bad.
///
/// # Errors
///
/// Only for want of memory.
pub fn answer(alloc: Global, stage: &mut Stage, line: &[u8]) -> Result<Option<String>, AllocError>
    requires { length line.now ≤ most_line_bytes }
    ensures { IfOk result
        (λ text. (script : Script) → Follows stage.old script →
        Answers (next script line.now) stage.new (option_map string_bytes text)) }
{
    let Ok(text) = str::from_utf8(line) else {
        return Ok(None);
    };
    match stage {
        Stage::Start => {
            let Some((first, answer)) = first_line(alloc, text)? else {
                return Ok(None);
            };
            *stage = first;
            Ok(Some(answer))
        }
        Stage::Running { sizes, instance } => later_line(alloc, sizes, instance, text),
        Stage::Setting { roles, liars } => {
            if let Some(setup) = setup_of_line(&roles.sizes(), text) {
                return Ok(Some(set_up(alloc, roles, liars, setup)?));
            }
            let Some(mut lab) = Lab::new(alloc, roles.copy(alloc)?, *liars)? else {
                return Ok(None);
            };
            let answer = cluster_line(alloc, &mut lab, text)?;
            *stage = Stage::Living(lab);
            Ok(answer)
        }
        Stage::Living(lab) => cluster_line(alloc, lab, text),
    }
}

fn first_line(alloc: Global, line: &str) -> Result<Option<(Stage, String)>, AllocError>
    ensures { IfOk result
        (λ first. StageAnswers (after_line Unread line.now) (option_map (λ p. (p.0, string_bytes p.1)) first)) }
{
    if let Some(sizes) = sizes_of_line(line) {
        let text = sizes_text(alloc, &sizes)?;
        let instance = Instance::new(alloc);
        return Ok(Some((Stage::Running { sizes, instance }, text)));
    }
    let Some(sizes) = cluster_of_line(line) else {
        return Ok(None);
    };
    let text = sizes_text(alloc, &sizes)?;
    let roles = RoleTable::new(alloc, sizes);
    let liars = NodeSet::new();
    Ok(Some((Stage::Setting { roles, liars }, text)))
}

fn later_line(
    alloc: Global,
    sizes: &Sizes,
    instance: &mut Instance,
    line: &str,
) -> Result<Option<String>, AllocError>
    ensures { IfOk result (λ text. (takes : List Take) → AreSizes sizes.now → instance.old ≡ state sizes.now takes →
        SendsAreFrom owner takes →
        Answers (after_line (OfInstance sizes.now takes) line.now) (Stage.Running sizes.now instance.new)
        (option_map string_bytes text)) }
{
    let Some(said) = take_of_line(sizes, line) else {
        return Ok(None);
    };
    let taken = instance.take(sizes, said.kind, said.from, said.command)?;
    let text = outcome_text(alloc, &taken)?;
    Ok(Some(text))
}

/// Adds a role or a liar of a cluster in which nothing else happened.
fn set_up(
    alloc: Global,
    roles: &mut RoleTable,
    liars: &mut NodeSet,
    setup: SetupLine,
) -> Result<String, AllocError>
    ensures text { IfOk result (λ text. string_bytes text ≡ (after_setup roles.old liars.old setup).1) }
    ensures after { OnOk result (OfSetup roles.new liars.new ≡ (after_setup roles.old liars.old setup).0) }
{
    match setup {
        SetupLine::Owned { role, owner } => add_role(alloc, roles, role, owner),
        SetupLine::Liar(node) => add_liar(alloc, roles, liars, node),
    }
}

fn add_role(
    alloc: Global,
    roles: &mut RoleTable,
    role: u16,
    owner: u8,
) -> Result<String, AllocError>
    ensures text { IfOk result (λ text. string_bytes text ≡ texts.role_text (add_due roles.old role owner)) }
    ensures roles { OnOk result (roles.new ≡ table_after roles.old role owner (add_due roles.old role owner)) }
{
    match roles.add(role, owner) {
        Ok(()) => role_text(alloc, None),
        Err(TableFault::Memory) => Err(AllocError),
        Err(fault) => role_text(alloc, Some(fault)),
    }
}

fn add_liar(
    alloc: Global,
    roles: &RoleTable,
    liars: &mut NodeSet,
    node: NodeName,
) -> Result<String, AllocError>
    ensures text { IfOk result (λ text. string_bytes text ≡ texts.liar_text (one_too_many roles.now liars.old node)) }
    ensures liars { liars.new ≡ liars_after roles.now liars.old node }
{
    let mut more = *liars;
    more.insert(node);
    let sizes = roles.sizes();
    let too_many = more.count_among(&sizes) > usize::from(sizes.f());
    if !too_many {
        *liars = more;
    }
    liar_text(alloc, too_many)
}

fn cluster_line(alloc: Global, lab: &mut Lab, line: &str) -> Result<Option<String>, AllocError>
    ensures { IfOk result (λ text. AreSizes (lab_sizes (lab_in lab.old)) →
        Answers (after_cluster_line (lab_in lab.old) line.now) (Stage.Living lab.new) (option_map string_bytes text)) }
{
    let Some(order) = order_of_line(alloc, &lab.sizes(), line)? else {
        return Ok(None);
    };
    let text = lab.answer(alloc, order)?;
    Ok(Some(text))
}
