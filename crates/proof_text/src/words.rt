//! Reads the words of a proof one by one.
ghost use Rattle.std.specs.Prelude.{◌≡◌, ◌++◌, ◌∷◌, [], Ok, OnOk, OnErr};
ghost use Rattle.keyword_text.specs.Reads.{Makes};
ghost use Rattle.plan_model.specs.Proofs.{OfLeaf, OfSum, OfPack, list_value, node_value, pricing_value, weights_value, proof_value};
ghost use Rattle.proof_text.specs.PartValues.{draft_value, leaf_value, part_value, Begins, Steps};
ghost use Rattle.proof_text.specs.Words.{at, start as state_at_first, with_list, with_node, with_branches, with_rank, with_price, with_use, list_of, begin as begins, begin_list as begins_list, begin_node as begins_node, begin_proof as begins_proof, begin_bound as begins_bound, step_number as steps_number, step_key as steps_key, step_leaf as steps_leaf, is_use as uses, step as steps, ended_by, wants_form, wants_wire, wants_grain, wants_price as wants_price_of, wants_list_weight as wants_weight, in_ranks, in_lists, in_tests};

use crate::parts::{Draft, Leaf, ListKind, Part};
use crate::tokens::Keyword;
use keyword_text::Token;
use outside::Stop;
use plan_model::{LISTS_MOST, Node, PRICE_MOST, Pricing, Proof, TestList, WEIGHT_MOST, Weights};
use soc_model::TestId;
use std::alloc::Global;
use std::mem::replace;

/// A draft of which nothing was read: one node is wanted.
pub fn new_draft(alloc: Global) -> Draft
    ensures { at (draft_value result) (part_value Part.WantsProof) ≡ state_at_first }
{
    Draft {
        claimed: 0,
        lists: Vec::new(alloc),
        nodes: Vec::new(alloc),
        wanted: 1,
    }
}

fn push_list(draft: &mut Draft, list: TestList) -> Result<(), Stop>
    ensures ok { OnOk result
        (draft_value draft.new ≡ with_list (draft_value draft.old) (list_value list)) }
    ensures err { OnErr result (result ≡ Err Stop.NoMemory) }
{
    draft.lists.push(list)?;
    Ok(())
}

fn push_node(draft: &mut Draft, node: Node) -> Result<(), Stop>
    ensures ok { OnOk result
        (draft_value draft.new ≡ with_node (draft_value draft.old) (node_value node)) }
    ensures err { OnErr result (result ≡ Err Stop.NoMemory) }
{
    draft.nodes.push(node)?;
    Ok(())
}

/// One more node with two branches, which wants a node for each. `NoMemory` too where their number passes its type.
fn push_split(draft: &mut Draft, node: Node) -> Result<(), Stop>
    ensures ok { OnOk result
        (draft_value draft.new ≡ with_branches (draft_value draft.old) (node_value node)) }
    ensures err { OnErr result (result ≡ Err Stop.NoMemory) }
{
    let Some(wanted) = draft.wanted.checked_add(2) else {
        return Err(Stop::NoMemory);
    };
    draft.nodes.push(node)?;
    draft.wanted = wanted;
    Ok(())
}

fn push_twin(twins: &mut Vec<u64>, twin: u64) -> Result<(), Stop>
    ensures ok { OnOk result (twins.new.items ≡ twins.old.items ++ twin ∷ []) }
    ensures err { OnErr result (result ≡ Err Stop.NoMemory) }
{
    twins.push(twin)?;
    Ok(())
}

fn push_rank(weights: &mut Weights, weight: u64) -> Result<(), Stop>
    ensures ok { OnOk result
        (weights_value weights.new ≡ with_rank (weights_value weights.old) weight) }
    ensures err { OnErr result (result ≡ Err Stop.NoMemory) }
{
    weights.ranks.push(weight)?;
    Ok(())
}

fn push_price(pricing: &mut Pricing, number: u64, price: u64) -> Result<(), Stop>
    ensures ok { OnOk result
        (pricing_value pricing.new ≡ with_price (pricing_value pricing.old) number price) }
    ensures err { OnErr result (result ≡ Err Stop.NoMemory) }
{
    pricing.prices.push((number, price))?;
    Ok(())
}

fn push_use(leaf: &mut Leaf, list: u64, weight: u64) -> Result<(), Stop>
    ensures ok { OnOk result (leaf_value leaf.new ≡ with_use (leaf_value leaf.old) list weight) }
    ensures err { OnErr result (result ≡ Err Stop.NoMemory) }
{
    match leaf {
        Leaf::Sum { weights } => weights.lists.push((list, weight))?,
        Leaf::Pack { pricing } => pricing.lists.push((list, weight))?,
    }
    Ok(())
}

/// Ends a step: puts the next part in place of this one. Each place that writes a part also drops whatever the old one may
/// own, and is proved for all of it, so one function writes.
#[inline(always)]
fn go_on(part: &mut Part, next: Part) -> Result<(), Stop>
    ensures next { part.new ≡ next }
    ensures ok { result ≡ Ok tt }
{
    *part = next;
    Ok(())
}

/// A list begins where no node has begun, and fewer lists than there may be; else no text goes on so.
fn begin_list(draft: &Draft, part: &mut Part, next: Part) -> Result<(), Stop>
    ensures { Steps (begins_list (draft_value draft.now) (part_value next)) result part.new
        draft.now }
{
    if !draft.nodes.is_empty() {
        return Err(Stop::Refused);
    }
    if draft.lists.len() >= LISTS_MOST {
        return Err(Stop::Refused);
    }
    go_on(part, next)
}

/// A node begins where one is wanted; else no text goes on so.
fn begin_node(draft: &mut Draft, part: &mut Part, next: Part) -> Result<(), Stop>
    ensures { Steps (begins_node (draft_value draft.old) (part_value next)) result part.new
        draft.new }
{
    if draft.wanted == 0 {
        return Err(Stop::Refused);
    }
    draft.wanted -= 1;
    go_on(part, next)
}

/// A list or a node begins at its keyword.
fn begin_part(alloc: Global, draft: &mut Draft, part: &mut Part, key: Keyword) -> Result<(), Stop>
    ensures { Steps (begins (draft_value draft.old) key) result part.new draft.new }
{
    match key {
        Keyword::Turns => {
            let next = Part::InTests {
                kind: ListKind::Turns,
                tests: Vec::new(alloc),
            };
            begin_list(draft, part, next)
        }
        Keyword::TurnsOn => begin_list(draft, part, Part::WantsListRank),
        Keyword::Crowd => begin_list(draft, part, Part::WantsMost),
        Keyword::Power => begin_list(draft, part, Part::WantsNear),
        Keyword::Wide => begin_node(draft, part, Part::WantsWideRank),
        Keyword::Place => begin_node(draft, part, Part::WantsModule),
        Keyword::Sum => begin_node(draft, part, Part::WantsWire),
        Keyword::Pack => begin_node(draft, part, Part::WantsGrain),
        Keyword::Proof | Keyword::Bound | Keyword::Of => Err(Stop::Refused),
    }
}

/// A list of its kind.
fn list_of_kind(kind: ListKind, tests: Vec<TestId>) -> TestList
    ensures { list_value result ≡ list_of kind tests.items }
{
    match kind {
        ListKind::Turns => TestList::Turns { tests },
        ListKind::TurnsOn { rank } => TestList::TurnsOn { rank, tests },
        ListKind::Crowd { most } => TestList::Crowd { most, tests },
    }
}

/// A keyword after a list of tests, which has at least one.
fn end_tests(
    alloc: Global,
    draft: &mut Draft,
    part: &mut Part,
    kind: ListKind,
    tests: Vec<TestId>,
    key: Keyword,
) -> Result<(), Stop>
    ensures { Steps (steps_key (draft_value draft.old) (in_tests kind tests.items) key) result
        part.new draft.new }
{
    if tests.is_empty() {
        return Err(Stop::Refused);
    }
    push_list(draft, list_of_kind(kind, tests))?;
    begin_part(alloc, draft, part, key)
}

/// A keyword after a module on the bus of a rank or of its twins.
fn end_place(
    alloc: Global,
    draft: &mut Draft,
    part: &mut Part,
    place: Node,
    key: Keyword,
) -> Result<(), Stop>
    ensures { Steps (begins (with_branches (draft_value draft.old) (node_value place)) key) result
        part.new draft.new }
{
    push_split(draft, place)?;
    begin_part(alloc, draft, part, key)
}

fn is_use(key: Keyword) -> bool
    ensures { result ≡ uses key }
{
    matches!(key, Keyword::Of)
}

/// The node of a leaf.
fn node_of_leaf(leaf: Leaf) -> Node
    ensures { node_value result ≡ OfLeaf (leaf_value leaf) }
{
    match leaf {
        Leaf::Sum { weights } => Node::Sum { weights },
        Leaf::Pack { pricing } => Node::Pack { pricing },
    }
}

/// A keyword after a leaf, of which more lists may come.
fn step_leaf(
    alloc: Global,
    draft: &mut Draft,
    part: &mut Part,
    leaf: Leaf,
    key: Keyword,
) -> Result<(), Stop>
    ensures { Steps (steps_leaf (draft_value draft.old) (leaf_value leaf) key (uses key)) result
        part.new draft.new }
{
    if is_use(key) {
        return go_on(part, Part::WantsList { leaf });
    }
    push_node(draft, node_of_leaf(leaf))?;
    begin_part(alloc, draft, part, key)
}

fn begin_proof(part: &mut Part, key: Keyword) -> Result<(), Stop>
    ensures { Begins (begins_proof key) result part.new }
{
    match key {
        Keyword::Proof => go_on(part, Part::WantsForm),
        _ => Err(Stop::Refused),
    }
}

fn begin_bound(part: &mut Part, key: Keyword) -> Result<(), Stop>
    ensures { Begins (begins_bound key) result part.new }
{
    match key {
        Keyword::Bound => go_on(part, Part::WantsClaim),
        _ => Err(Stop::Refused),
    }
}

/// Weights that stand where some are taken away.
fn no_weights(alloc: Global) -> Weights {
    Weights {
        wire: 0,
        ranks: Vec::new(alloc),
        lists: Vec::new(alloc),
    }
}

/// Prices that stand where some are taken away.
fn no_prices(alloc: Global) -> Pricing {
    Pricing {
        grain: 1,
        prices: Vec::new(alloc),
        lists: Vec::new(alloc),
    }
}

/// A leaf that stands where one is taken away.
fn no_leaf(alloc: Global) -> Leaf {
    Leaf::Sum {
        weights: no_weights(alloc),
    }
}

/// A keyword as the next word.
fn step_key(alloc: Global, draft: &mut Draft, part: &mut Part, key: Keyword) -> Result<(), Stop>
    ensures { Steps (steps_key (draft_value draft.old) (part_value part.old) key) result part.new
        draft.new }
{
    match part {
        Part::WantsProof => begin_proof(part, key),
        Part::WantsBound => begin_bound(part, key),
        Part::Between => begin_part(alloc, draft, part, key),
        Part::InTests { kind, tests } => {
            let kind = *kind;
            let tests = replace(tests, Vec::new(alloc));
            end_tests(alloc, draft, part, kind, tests, key)
        }
        Part::InPlace {
            module,
            rank,
            twins,
        } => {
            let module = *module;
            let rank = *rank;
            let twins = replace(twins, Vec::new(alloc));
            let place = Node::Place {
                module,
                rank,
                twins,
            };
            end_place(alloc, draft, part, place, key)
        }
        Part::InRanks { weights } => {
            let weights = replace(weights, no_weights(alloc));
            step_leaf(alloc, draft, part, Leaf::Sum { weights }, key)
        }
        Part::InPrices { pricing } => {
            let pricing = replace(pricing, no_prices(alloc));
            step_leaf(alloc, draft, part, Leaf::Pack { pricing }, key)
        }
        Part::InLists { leaf } => {
            let leaf = replace(leaf, no_leaf(alloc));
            step_leaf(alloc, draft, part, leaf, key)
        }
        Part::WantsForm
        | Part::WantsClaim
        | Part::WantsListRank
        | Part::WantsMost
        | Part::WantsNear
        | Part::WantsTest { .. }
        | Part::WantsWideRank
        | Part::WantsWidth { .. }
        | Part::WantsModule
        | Part::WantsPlaceRank { .. }
        | Part::WantsWire
        | Part::WantsGrain
        | Part::WantsPrice { .. }
        | Part::WantsList { .. }
        | Part::WantsListWeight { .. } => Err(Stop::Refused),
    }
}

/// The number of a proof's form, which is 1.
fn step_form(draft: &Draft, part: &mut Part, n: u64) -> Result<(), Stop>
    ensures { Steps (steps_number (draft_value draft.now) wants_form n) result part.new draft.now }
{
    if n == 1 {
        go_on(part, Part::WantsBound)
    } else {
        Err(Stop::Refused)
    }
}

/// One more list with a number of its own and no test yet.
fn open_list(alloc: Global, part: &mut Part, kind: ListKind) -> Result<(), Stop>
    ensures next { part_value part.new ≡ in_tests kind [] }
    ensures ok { result ≡ Ok tt }
{
    let tests = Vec::new(alloc);
    go_on(part, Part::InTests { kind, tests })
}

/// The next test of a list.
fn step_test(
    part: &mut Part,
    kind: ListKind,
    mut tests: Vec<TestId>,
    test: TestId,
) -> Result<(), Stop>
    ensures ok { OnOk result (part_value part.new ≡ in_tests kind (tests.items ++ test ∷ [])) }
    ensures err { OnErr result (result ≡ Err Stop.NoMemory) }
{
    tests.push(test)?;
    go_on(part, Part::InTests { kind, tests })
}

/// The weight of a wire.
fn step_wire(alloc: Global, draft: &Draft, part: &mut Part, wire: u64) -> Result<(), Stop>
    ensures { Steps (steps_number (draft_value draft.now) wants_wire wire) result part.new
        draft.now }
{
    if wire > WEIGHT_MOST {
        return Err(Stop::Refused);
    }
    let weights = Weights {
        wire,
        ranks: Vec::new(alloc),
        lists: Vec::new(alloc),
    };
    go_on(part, Part::InRanks { weights })
}

/// The cycles of a cell, of which there is one at least.
fn step_grain(alloc: Global, draft: &Draft, part: &mut Part, grain: u64) -> Result<(), Stop>
    ensures { Steps (steps_number (draft_value draft.now) wants_grain grain) result part.new
        draft.now }
{
    if grain < 1 {
        return Err(Stop::Refused);
    }
    let pricing = Pricing {
        grain,
        prices: Vec::new(alloc),
        lists: Vec::new(alloc),
    };
    go_on(part, Part::InPrices { pricing })
}

/// The price of a module.
fn step_price(
    draft: &Draft,
    part: &mut Part,
    mut pricing: Pricing,
    number: u64,
    price: u64,
) -> Result<(), Stop>
    ensures { Steps
        (steps_number (draft_value draft.now) (wants_price_of (pricing_value pricing) number) price)
        result part.new draft.now }
{
    if price > PRICE_MOST {
        return Err(Stop::Refused);
    }
    push_price(&mut pricing, number, price)?;
    go_on(part, Part::InPrices { pricing })
}

/// The weight of a list.
fn step_use(
    draft: &Draft,
    part: &mut Part,
    mut leaf: Leaf,
    list: u64,
    weight: u64,
) -> Result<(), Stop>
    ensures { Steps
        (steps_number (draft_value draft.now) (wants_weight (leaf_value leaf) list) weight) result
        part.new draft.now }
{
    if weight > WEIGHT_MOST {
        return Err(Stop::Refused);
    }
    push_use(&mut leaf, list, weight)?;
    go_on(part, Part::InLists { leaf })
}

/// A number as the next word. What goes on is changed where it stands.
fn step_number(alloc: Global, draft: &mut Draft, part: &mut Part, n: u64) -> Result<(), Stop>
    ensures { Steps (steps_number (draft_value draft.old) (part_value part.old) n) result part.new
        draft.new }
{
    match part {
        Part::WantsForm => step_form(draft, part, n),
        Part::WantsClaim => {
            draft.claimed = n;
            go_on(part, Part::Between)
        }
        Part::WantsListRank => open_list(alloc, part, ListKind::TurnsOn { rank: n }),
        Part::WantsMost => open_list(alloc, part, ListKind::Crowd { most: n }),
        Part::WantsNear => {
            push_list(draft, TestList::Power { near: n })?;
            go_on(part, Part::Between)
        }
        Part::InTests { kind, tests } => {
            let kind = *kind;
            let tests = replace(tests, Vec::new(alloc));
            let next = Part::WantsTest {
                kind,
                tests,
                module: n,
            };
            go_on(part, next)
        }
        Part::WantsTest {
            kind,
            tests,
            module,
        } => {
            let kind = *kind;
            let module = *module;
            let tests = replace(tests, Vec::new(alloc));
            step_test(part, kind, tests, TestId { module, test: n })
        }
        Part::WantsWideRank => go_on(part, Part::WantsWidth { rank: n }),
        Part::WantsWidth { rank } => {
            let rank = *rank;
            push_split(draft, Node::Wide { rank, width: n })?;
            go_on(part, Part::Between)
        }
        Part::WantsModule => go_on(part, Part::WantsPlaceRank { module: n }),
        Part::WantsPlaceRank { module } => {
            let module = *module;
            let next = Part::InPlace {
                module,
                rank: n,
                twins: Vec::new(alloc),
            };
            go_on(part, next)
        }
        Part::InPlace { twins, .. } => push_twin(twins, n),
        Part::WantsWire => step_wire(alloc, draft, part, n),
        Part::InRanks { weights } => {
            if n > WEIGHT_MOST {
                return Err(Stop::Refused);
            }
            push_rank(weights, n)
        }
        Part::WantsGrain => step_grain(alloc, draft, part, n),
        Part::InPrices { pricing } => {
            let pricing = replace(pricing, no_prices(alloc));
            go_on(part, Part::WantsPrice { pricing, module: n })
        }
        Part::WantsPrice { pricing, module } => {
            let module = *module;
            let pricing = replace(pricing, no_prices(alloc));
            step_price(draft, part, pricing, module, n)
        }
        Part::WantsList { leaf } => {
            let leaf = replace(leaf, no_leaf(alloc));
            go_on(part, Part::WantsListWeight { leaf, list: n })
        }
        Part::WantsListWeight { leaf, list } => {
            let list = *list;
            let leaf = replace(leaf, no_leaf(alloc));
            step_use(draft, part, leaf, list, n)
        }
        Part::WantsProof | Part::WantsBound | Part::Between | Part::InLists { .. } => {
            Err(Stop::Refused)
        }
    }
}

/// The next word.
pub fn step_token(
    alloc: Global,
    draft: &mut Draft,
    part: &mut Part,
    token: Token<Keyword>,
) -> Result<(), Stop>
    ensures { Steps (steps (at (draft_value draft.old) (part_value part.old)) token) result part.new
        draft.new }
{
    match token {
        Token::Key(key) => step_key(alloc, draft, part, key),
        Token::Number(n) => step_number(alloc, draft, part, n),
    }
}

/// The proof of a draft whose last node is this leaf, where no more nodes are wanted.
fn whole(mut draft: Draft, leaf: Leaf) -> Result<Proof, Stop>
    ensures { Makes proof_value (ended_by (draft_value draft) (in_lists (leaf_value leaf))) result }
{
    if draft.wanted > 0 {
        return Err(Stop::Refused);
    }
    push_node(&mut draft, node_of_leaf(leaf))?;
    Ok(Proof {
        claimed: draft.claimed,
        lists: draft.lists,
        nodes: draft.nodes,
    })
}

/// The proof whose words end here: its last node is a leaf, which goes on to the end.
pub fn end_proof(draft: Draft, part: Part) -> Result<Proof, Stop>
    ensures { Makes proof_value (ended_by (draft_value draft) (part_value part)) result }
{
    match part {
        Part::InRanks { weights } => whole(draft, Leaf::Sum { weights }),
        Part::InPrices { pricing } => whole(draft, Leaf::Pack { pricing }),
        Part::InLists { leaf } => whole(draft, leaf),
        _ => Err(Stop::Refused),
    }
}
