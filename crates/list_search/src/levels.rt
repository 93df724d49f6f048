//! The levels of a search for cliques: a clique that is grown by one vertex a level, and what may join it, by colour classes
//! of vertices of which none excludes another.

use crate::graph::Graph;
use outside::NoMemory;
use std::alloc::Global;
use tables::{filled, first_mark, item_or, put_item, unmark_place, words_for};

/// The most vertices in classes, of all levels together.
const ENTRIES_MOST: usize = 1 << 18;

/// The levels.
#[derive(Drop)]
pub(crate) struct Levels {
    /// How many levels are in use: the first has the empty clique.
    pub depth: usize,
    /// For each level a row of marks: the vertices that may join the clique.
    pub allowed: Vec<u64>,
    /// For each level a row of marks: the vertices that exclude all of the clique.
    pub common: Vec<u64>,
    /// For each level what its clique counts.
    pub sum: Vec<i64>,
    /// For each level the vertex that was tried last.
    pub tried: Vec<usize>,
    /// For each level where its vertices begin in the lists of vertices and bounds.
    pub first: Vec<usize>,
    /// For each level how many vertices are left to try.
    pub left: Vec<usize>,
    /// Vertices by classes.
    pub vertex: Vec<usize>,
    /// For each of these what cliques of it and those before it on its level count at most.
    pub bound: Vec<i64>,
}

/// The colour classes of a level, as they are made.
#[derive(Drop)]
pub(crate) struct Classes {
    /// A row of marks: the vertices that have no class.
    left: Vec<u64>,
    /// A row of marks: the vertices that may join the class.
    free: Vec<u64>,
    /// Where the next vertex goes in the lists of the levels.
    end: usize,
    /// What the classes before this one count at most.
    closed: i64,
    /// The greatest weight in this class.
    heaviest: i64,
    /// What the vertices of this class count beside a clique.
    besides: i64,
    /// What the vertices in no class count beside a clique.
    others: i64,
    /// Whether there is no more room in the lists of the levels.
    full: bool,
}

impl Levels {
    /// Room for the levels of graphs of so many tests. `NoMemory` where memory runs out.
    pub fn new(alloc: Global, tests: usize) -> Result<Levels, NoMemory> {
        let most = tests.saturating_add(1);
        let room = most.saturating_mul(words_for(tests));
        let entries = most.saturating_mul(most).min(ENTRIES_MOST);
        let allowed = filled(alloc, 0u64, room)?;
        let common = filled(alloc, 0u64, room)?;
        let sum = filled(alloc, 0i64, most)?;
        let tried = filled(alloc, 0usize, most)?;
        let first = filled(alloc, 0usize, most)?;
        let left = filled(alloc, 0usize, most)?;
        let vertex = filled(alloc, 0usize, entries)?;
        let bound = filled(alloc, 0i64, entries)?;
        Ok(Levels {
            depth: 0,
            allowed,
            common,
            sum,
            tried,
            first,
            left,
            vertex,
            bound,
        })
    }

    /// Opens a level behind all vertices that are left on the one below it.
    pub fn open(&mut self, level: usize) {
        let below = level.saturating_sub(1);
        let first = item_or(&self.first, below, 0);
        let end = first.saturating_add(item_or(&self.left, below, 0));
        put_item(&mut self.first, level, end);
        self.depth = level.saturating_add(1);
    }
}

impl Classes {
    /// Room for the classes of graphs of so many tests. `NoMemory` where memory runs out.
    pub fn new(alloc: Global, tests: usize) -> Result<Classes, NoMemory> {
        let words = words_for(tests);
        let left = filled(alloc, 0u64, words)?;
        let free = filled(alloc, 0u64, words)?;
        Ok(Classes {
            left,
            free,
            end: 0,
            closed: 0,
            heaviest: 0,
            besides: 0,
            others: 0,
            full: false,
        })
    }

    /// Begins the classes of a level: no vertex that is allowed there has one. `beside` is what all vertices that exclude the
    /// level's clique count beside it, together.
    fn restart(&mut self, words: usize, levels: &Levels, level: usize, beside: i64) {
        self.end = item_or(&levels.first, level, 0);
        self.closed = 0;
        self.heaviest = 0;
        self.besides = 0;
        self.others = beside;
        self.full = false;
        let from = level.saturating_mul(words);
        for word in 0..words {
            let marks = item_or(&levels.allowed, from.saturating_add(word), 0);
            put_item(&mut self.left, word, marks);
        }
    }

    /// What the classes so far count at most.
    fn most(&self) -> i64 {
        let own = self.heaviest.max(self.besides);
        self.closed.saturating_add(own)
    }

    /// Begins another class. Whether any vertex has none yet.
    fn begin(&mut self, words: usize) -> bool {
        self.closed = self.most();
        self.heaviest = 0;
        self.besides = 0;
        let mut any = false;
        for word in 0..words {
            let marks = item_or(&self.left, word, 0);
            put_item(&mut self.free, word, marks);
            if marks != 0 {
                any = true;
            }
        }
        any
    }

    /// Keeps the vertices that exclude one out of its class.
    fn narrow(&mut self, graph: &Graph, vertex: usize) {
        let from = vertex.saturating_mul(graph.words);
        for word in vertex >> 6..graph.words {
            let near = item_or(&graph.near, from.saturating_add(word), 0);
            let free = item_or(&self.free, word, 0);
            put_item(&mut self.free, word, free & !near);
        }
    }

    /// Puts a vertex into the class.
    fn take(&mut self, graph: &Graph, levels: &mut Levels, vertex: usize) {
        if self.end >= levels.vertex.len() {
            self.full = true;
            return;
        }
        let beside = item_or(&graph.beside, vertex, 0);
        let weight = item_or(&graph.weight, vertex, 0);
        self.heaviest = self.heaviest.max(weight);
        self.besides = self.besides.saturating_add(beside);
        self.others = self.others.saturating_sub(beside);
        let bound = self.most().saturating_add(self.others);
        put_item(&mut levels.vertex, self.end, vertex);
        put_item(&mut levels.bound, self.end, bound);
        self.end = self.end.saturating_add(1);
        unmark_place(&mut self.left, 0, vertex);
        unmark_place(&mut self.free, 0, vertex);
        self.narrow(graph, vertex);
    }

    /// Puts the vertices of a word into the class that may join it.
    fn take_word(&mut self, graph: &Graph, levels: &mut Levels, word: usize) {
        for _ in 0..64 {
            let marks = item_or(&self.free, word, 0);
            if marks == 0 || self.full {
                return;
            }
            self.take(graph, levels, first_mark(word, marks));
        }
    }

    /// Makes a class. Whether there may be another.
    fn make(&mut self, graph: &Graph, levels: &mut Levels) -> bool {
        if self.full || !self.begin(graph.words) {
            return false;
        }
        for word in 0..graph.words {
            self.take_word(graph, levels, word);
        }
        true
    }

    /// Puts all vertices that may join the clique of a level into classes; none is left to try where there is no room. `beside`
    /// is what all vertices that exclude the clique count beside it, together.
    pub fn make_all(&mut self, graph: &Graph, levels: &mut Levels, level: usize, beside: i64) {
        self.restart(graph.words, levels, level, beside);
        for _ in 0..graph.vertices.saturating_add(1) {
            if !self.make(graph, levels) {
                break;
            }
        }
        let first = item_or(&levels.first, level, 0);
        let mut count = self.end.saturating_sub(first);
        if self.full {
            count = 0;
        }
        put_item(&mut levels.left, level, count);
    }
}
