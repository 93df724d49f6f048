//! Reads the words of a tree one by one.
ghost use Rattle.std.specs.Prelude.{◌≡◌, ◌++◌, ◌∷◌, [], OnOk, OnErr};
ghost use Rattle.keyword_text.specs.Reads.{Makes};
ghost use Rattle.width_tree.specs.Trees.{node_value, tree_value};
ghost use Rattle.width_tree.specs.Steps.{draft_value, part_value, Steps, at, start as state_at_first, with_node, with_split, begin as begins, begin_node as begins_node, begin_tree as begins_tree, begin_bound as begins_bound, step_number as steps_number, step_key as steps_key, step as steps, tree_at, wants_form, in_bus};
ghost use Rattle.width_tree.specs.declared.parts.Draft.{Draft as AnyDraft};

use crate::parts::{Draft, Part};
use crate::tokens::Keyword;
use crate::{Node, Tree};
use keyword_text::Token;
use outside::Stop;
use std::alloc::Global;

/// A draft of which nothing was read: one node is wanted.
pub fn new_draft(alloc: Global) -> Draft
    ensures { at (draft_value result) (part_value Part.WantsTree) ≡ state_at_first }
{
    Draft {
        claimed: 0,
        nodes: Vec::new(alloc),
        wanted: 1,
    }
}

/// One more node.
fn push_node(draft: &mut Draft, node: Node) -> Result<(), Stop>
    ensures ok { OnOk result
        (draft_value draft.new ≡ with_node (draft_value draft.old) (node_value node)) }
    ensures err { OnErr result (result ≡ Err Stop.NoMemory) }
{
    draft.nodes.push(node)?;
    Ok(())
}

/// One more split, which wants a node for each of its branches. `NoMemory` too where their number passes its type.
fn push_split(draft: &mut Draft, module: u64, at: u64) -> Result<(), Stop>
    ensures ok { OnOk result
        (draft_value draft.new ≡ with_split (draft_value draft.old) «module» at) }
    ensures err { OnErr result (result ≡ Err Stop.NoMemory) }
{
    let Some(wanted) = draft.wanted.checked_add(2) else {
        return Err(Stop::NoMemory);
    };
    draft.nodes.push(Node::Split { module, at })?;
    draft.wanted = wanted;
    Ok(())
}

/// One more module on a bus.
fn push_module(modules: &mut Vec<u64>, module: u64) -> Result<(), Stop>
    ensures ok { OnOk result (modules.new.items ≡ modules.old.items ++ «module» ∷ []) }
    ensures err { OnErr result (result ≡ Err Stop.NoMemory) }
{
    modules.push(module)?;
    Ok(())
}

/// A node begins at its keyword.
fn begin_node(alloc: Global, draft: &mut Draft, key: Keyword) -> Result<Part, Stop>
    ensures { Steps (begins_node (draft_value draft.old) key) result draft.new }
{
    match key {
        Keyword::Tree | Keyword::Bound => Err(Stop::Refused),
        Keyword::Split => Ok(Part::WantsSplitModule),
        Keyword::Time => Ok(Part::WantsTimeModule),
        Keyword::Area => {
            push_node(draft, Node::Area)?;
            Ok(Part::Between)
        }
        Keyword::Bus => Ok(Part::InBus {
            modules: Vec::new(alloc),
        }),
        Keyword::Apart => Ok(Part::WantsFirst),
    }
}

/// Begins a node where one is wanted; else no text goes on so.
fn begin_part(alloc: Global, draft: &mut Draft, key: Keyword) -> Result<Part, Stop>
    ensures { Steps (begins (draft_value draft.old) key) result draft.new }
{
    if draft.wanted == 0 {
        return Err(Stop::Refused);
    }
    draft.wanted -= 1;
    begin_node(alloc, draft, key)
}

/// A keyword after modules on a bus.
fn end_bus(alloc: Global, draft: &mut Draft, modules: Vec<u64>, key: Keyword) -> Result<Part, Stop>
    ensures { Steps (steps_key (draft_value draft.old) (in_bus modules.items) key) result
        draft.new }
{
    push_node(draft, Node::Bus { modules })?;
    begin_part(alloc, draft, key)
}

fn begin_tree(key: Keyword) -> Result<Part, Stop>
    ensures { (draft : AnyDraft) → Steps (begins_tree (draft_value draft) key) result draft }
{
    match key {
        Keyword::Tree => Ok(Part::WantsForm),
        _ => Err(Stop::Refused),
    }
}

fn begin_bound(key: Keyword) -> Result<Part, Stop>
    ensures { (draft : AnyDraft) → Steps (begins_bound (draft_value draft) key) result draft }
{
    match key {
        Keyword::Bound => Ok(Part::WantsClaim),
        _ => Err(Stop::Refused),
    }
}

/// A keyword as the next word.
fn step_key(alloc: Global, draft: &mut Draft, part: Part, key: Keyword) -> Result<Part, Stop>
    ensures { Steps (steps_key (draft_value draft.old) (part_value part) key) result draft.new }
{
    match part {
        Part::WantsTree => begin_tree(key),
        Part::WantsBound => begin_bound(key),
        Part::Between => begin_part(alloc, draft, key),
        Part::InBus { modules } => end_bus(alloc, draft, modules, key),
        Part::WantsForm
        | Part::WantsClaim
        | Part::WantsSplitModule
        | Part::WantsSplitWidth { .. }
        | Part::WantsTimeModule
        | Part::WantsFirst
        | Part::WantsSecond { .. } => Err(Stop::Refused),
    }
}

/// The number of a tree's form, which is 1.
fn step_form(draft: &mut Draft, n: u64) -> Result<Part, Stop>
    ensures { Steps (steps_number (draft_value draft.old) wants_form n) result draft.new }
{
    if n == 1 {
        Ok(Part::WantsBound)
    } else {
        Err(Stop::Refused)
    }
}

/// A number as the next word.
fn step_number(draft: &mut Draft, part: Part, n: u64) -> Result<Part, Stop>
    ensures { Steps (steps_number (draft_value draft.old) (part_value part) n) result draft.new }
{
    match part {
        Part::WantsForm => step_form(draft, n),
        Part::WantsClaim => {
            draft.claimed = n;
            Ok(Part::Between)
        }
        Part::WantsSplitModule => Ok(Part::WantsSplitWidth { module: n }),
        Part::WantsSplitWidth { module } => {
            push_split(draft, module, n)?;
            Ok(Part::Between)
        }
        Part::WantsTimeModule => {
            push_node(draft, Node::Time { module: n })?;
            Ok(Part::Between)
        }
        Part::InBus { mut modules } => {
            push_module(&mut modules, n)?;
            Ok(Part::InBus { modules })
        }
        Part::WantsFirst => Ok(Part::WantsSecond { a: n }),
        Part::WantsSecond { a } => {
            push_node(draft, Node::Apart { a, b: n })?;
            Ok(Part::Between)
        }
        Part::WantsTree | Part::WantsBound | Part::Between => Err(Stop::Refused),
    }
}

/// The next word.
pub fn take_token(
    alloc: Global,
    draft: &mut Draft,
    part: Part,
    token: Token<Keyword>,
) -> Result<Part, Stop>
    ensures { Steps (steps (at (draft_value draft.old) (part_value part)) token) result draft.new }
{
    match token {
        Token::Key(key) => step_key(alloc, draft, part, key),
        Token::Number(n) => step_number(draft, part, n),
    }
}

/// The tree of a draft, where no more nodes are wanted.
fn whole(draft: Draft) -> Result<Tree, Stop>
    ensures { Makes tree_value (tree_at (draft_value draft) (part_value Part.Between)) result }
{
    if draft.wanted > 0 {
        return Err(Stop::Refused);
    }
    Ok(Tree {
        claimed: draft.claimed,
        nodes: draft.nodes,
    })
}

/// The tree whose words end here.
pub fn end_tree(mut draft: Draft, part: Part) -> Result<Tree, Stop>
    ensures { Makes tree_value (tree_at (draft_value draft) (part_value part)) result }
{
    match part {
        Part::Between => whole(draft),
        Part::InBus { modules } => {
            push_node(&mut draft, Node::Bus { modules })?;
            whole(draft)
        }
        _ => Err(Stop::Refused),
    }
}
