//! The lines that say how nodes stand.

ghost use Rattle.std.specs.List.{flat_map};
ghost use Rattle.std.specs.Prelude.{◌≡◌, ◌++◌, OnErr, OnOk};
ghost use Rattle.roll_call.specs.Lines as lines;
ghost use Rattle.roll_call.specs.Nodes.{news_of};

use crate::node::{Asked, Standing};
use nop_types::{Actor, NoMemory};
use transcript_text::{Field, write_line};

/// Appends the line of a node that stands so.
#[tactic(auto, unfolding(crate::specs::Lines::node_line))]
fn put_standing(actor: Actor, standing: Standing, to: &mut Vec<u8>) -> Result<(), NoMemory>
    ensures { OnOk result (to.new.items ≡ to.old.items ++ lines.node_line actor standing) }
{
    let word = if standing.answers {
        "answers"
    } else {
        "silent"
    };
    let fields = [
        Field::Name(actor),
        Field::Word(word),
        Field::Number(standing.since),
    ];
    write_line("node", &fields, to)
}

/// Appends the line of a node, if it stands in some way.
fn put_line(actor: Actor, standing: Option<Standing>, to: &mut Vec<u8>) -> Result<(), NoMemory>
    ensures { OnOk result (to.new.items ≡ to.old.items ++ lines.standing_lines actor standing) }
{
    match standing {
        Some(standing) => put_standing(actor, standing, to),
        None => Ok(()),
    }
}

/// Appends the lines of the nodes that stand otherwise than before.
pub(crate) fn put_news(nodes: &[Asked], now: u64, to: &mut Vec<u8>) -> Result<(), NoMemory>
    ensures { OnOk result (to.new.items ≡ to.old.items ++ flat_map (λ a.
        lines.standing_lines a.node.actor (news_of now a)) nodes.now) }
{
    for asked in nodes {
        put_line(asked.node.actor, asked.news(now), to)?;
    }
    Ok(())
}

/// Appends the lines of how nodes stand.
pub(crate) fn put_standings(nodes: &[Asked], to: &mut Vec<u8>) -> Result<(), NoMemory>
    ensures { OnOk result (to.new.items ≡ to.old.items ++ flat_map (λ a.
        lines.standing_lines a.node.actor a.standing) nodes.now) }
{
    for asked in nodes {
        put_line(asked.node.actor, asked.standing, to)?;
    }
    Ok(())
}
