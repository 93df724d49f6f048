//! Looks for tests that exclude each other and count most together: branch and bound over the graph of exclusions, by colour
//! classes. What it finds in its steps need not be the best.

use crate::graph::Graph;
use crate::levels::{Classes, Levels};
use outside::{NoMemory, both};
use std::alloc::Global;
use tables::{
    NONE, fill_items, filled, first_mark, item_or, mark_place, marked, put_item, sum_of_marked,
    unmark_place, words_for,
};

/// From how many of the heaviest vertices a clique is grown first.
const GROWN: usize = 16;

/// A search for cliques: tests that exclude each other. Tests go by their places.
#[derive(Drop)]
pub struct Cliques {
    /// The graph that is searched.
    graph: Graph,
    levels: Levels,
    classes: Classes,
    /// Only cliques that count more are looked for: what the best one counts that was found.
    best: i64,
    /// A row of marks: the tests of the best clique that was found.
    found: Vec<u64>,
    /// Whether one was found.
    was_found: bool,
}

impl Cliques {
    /// Room for the search over so many tests. `NoMemory` where memory runs out.
    pub fn new(alloc: Global, tests: usize) -> Result<Cliques, NoMemory> {
        let vertices = both(
            Graph::new(alloc, tests),
            filled(alloc, 0u64, words_for(tests)),
        );
        let walk = both(Levels::new(alloc, tests), Classes::new(alloc, tests));
        let ((graph, found), (levels, classes)) = both(vertices, walk)?;
        Ok(Cliques {
            graph,
            levels,
            classes,
            best: 0,
            found,
            was_found: false,
        })
    }

    /// Takes the tests of the row of marks `tests`, of which those of the row `open` may be in a clique. `rows` has a row of marks for
    /// each test: the tests that it excludes. `weights` says what each test counts in a clique; beside one none counts.
    pub fn take_tests(&mut self, rows: &[u64], weights: &[i64], tests: &[u64], open: &[u64]) {
        self.graph.set(rows, weights, tests, open);
    }

    /// Says what tests count where they aren't in a clique and exclude all of it: it stands in `counts`, test by test, from the place
    /// `from` on. Whether any counts so.
    pub fn take_beside(&mut self, counts: &[i64], from: usize) -> bool {
        self.graph.set_beside(counts, from);
        self.graph.any_beside
    }

    /// A row of marks: the tests of the best clique that the last search found.
    pub fn found(&self) -> &[u64] {
        &self.found
    }

    /// What the vertices that exclude all of a level's clique count beside it.
    fn beside(&self, level: usize) -> i64 {
        let mut sum: i64 = 0;
        if !self.graph.any_beside {
            return sum;
        }
        let from = level.saturating_mul(self.graph.words);
        for word in 0..self.graph.words {
            let marks = item_or(&self.levels.common, from.saturating_add(word), 0);
            sum = sum.saturating_add(sum_of_marked(&self.graph.beside, word, marks));
        }
        sum
    }

    /// Notes the vertices that were tried on the levels below one as the best clique.
    fn note(&mut self, level: usize, count: i64) {
        self.best = count;
        self.was_found = true;
        fill_items(&mut self.found, 0);
        for below in 0..level {
            let vertex = item_or(&self.levels.tried, below, NONE);
            let test = item_or(&self.graph.test, vertex, NONE);
            mark_place(&mut self.found, 0, test);
        }
    }

    /// Allows on the next level what is allowed on a level and excludes a vertex. Whether there is any.
    fn allow(&mut self, level: usize, vertex: usize) -> bool {
        let words = self.graph.words;
        let row = vertex.saturating_mul(words);
        let from = level.saturating_mul(words);
        let to = from.saturating_add(words);
        let mut any = false;
        for word in 0..words {
            let near = item_or(&self.graph.near, row.saturating_add(word), 0);
            let marks = item_or(&self.levels.allowed, from.saturating_add(word), 0) & near;
            put_item(&mut self.levels.allowed, to.saturating_add(word), marks);
            if marks != 0 {
                any = true;
            }
        }
        any
    }

    /// Marks for the next level what excludes the clique of a level and a vertex.
    fn share(&mut self, level: usize, vertex: usize) {
        let words = self.graph.words;
        let row = vertex.saturating_mul(words);
        let from = level.saturating_mul(words);
        let to = from.saturating_add(words);
        for word in 0..words {
            let near = item_or(&self.graph.near, row.saturating_add(word), 0);
            let marks = item_or(&self.levels.common, from.saturating_add(word), 0) & near;
            put_item(&mut self.levels.common, to.saturating_add(word), marks);
        }
    }

    /// Makes the clique of the next level: that of a level with a vertex. Whether any vertex may join it.
    fn descend(&mut self, level: usize, vertex: usize) -> bool {
        let next = level.saturating_add(1);
        let weight = item_or(&self.graph.weight, vertex, 0);
        let sum = item_or(&self.levels.sum, level, 0).saturating_add(weight);
        put_item(&mut self.levels.tried, level, vertex);
        put_item(&mut self.levels.sum, next, sum);
        let any = self.allow(level, vertex);
        if self.graph.any_beside {
            self.share(level, vertex);
        }
        let count = sum.saturating_add(self.beside(next));
        if count > self.best {
            self.note(next, count);
        }
        any
    }

    /// Puts what may join the clique of a level into colour classes.
    fn colour(&mut self, level: usize) {
        let beside = self.beside(level);
        self.classes
            .make_all(&self.graph, &mut self.levels, level, beside);
    }

    /// Tries a vertex of a level that has `left` vertices behind it.
    fn attempt(&mut self, level: usize, vertex: usize, left: usize) {
        let row = level.saturating_mul(self.graph.words);
        put_item(&mut self.levels.left, level, left);
        unmark_place(&mut self.levels.allowed, row, vertex);
        if self.descend(level, vertex) {
            let next = level.saturating_add(1);
            self.levels.open(next);
            self.colour(next);
        }
    }

    /// One step: tries the next vertex of the last level, or leaves that level. Whether there is another.
    fn step(&mut self) -> bool {
        if self.levels.depth == 0 {
            return false;
        }
        let level = self.levels.depth.saturating_sub(1);
        let behind = item_or(&self.levels.left, level, 0);
        let left = behind.saturating_sub(1);
        let at = item_or(&self.levels.first, level, 0).saturating_add(left);
        let own = item_or(&self.levels.sum, level, 0);
        let most = own.saturating_add(item_or(&self.levels.bound, at, 0));
        if behind == 0 || most <= self.best {
            self.levels.depth = level;
            return true;
        }
        let vertex = item_or(&self.levels.vertex, at, NONE);
        self.attempt(level, vertex, left);
        true
    }

    /// Marks all vertices as such that exclude the empty clique.
    fn share_all(&mut self) {
        for word in 0..self.graph.words {
            put_item(&mut self.levels.common, word, 0);
        }
        for vertex in 0..self.graph.vertices {
            mark_place(&mut self.levels.common, 0, vertex);
        }
    }

    /// Begins with the empty clique, and looks for what counts more than a bound.
    fn begin(&mut self, more_than: i64) {
        self.best = more_than;
        self.was_found = false;
        self.levels.depth = 1;
        put_item(&mut self.levels.sum, 0, 0);
        put_item(&mut self.levels.first, 0, 0);
        self.share_all();
        for word in 0..self.graph.words {
            let marks = item_or(&self.graph.open, word, 0);
            put_item(&mut self.levels.allowed, word, marks);
        }
    }

    /// The first vertex that may join the clique of a level, NONE where there is none.
    fn first_allowed(&self, level: usize) -> usize {
        let from = level.saturating_mul(self.graph.words);
        for word in 0..self.graph.words {
            let marks = item_or(&self.levels.allowed, from.saturating_add(word), 0);
            if marks != 0 {
                return first_mark(word, marks);
            }
        }
        NONE
    }

    /// Grows a clique from a vertex, by the heaviest that may join it each time.
    fn grow(&mut self, vertex: usize) {
        let mut next = vertex;
        for level in 0..self.graph.vertices {
            if next == NONE || !self.descend(level, next) {
                return;
            }
            next = self.first_allowed(level.saturating_add(1));
        }
    }

    /// Grows a clique from each of the heaviest vertices.
    fn grow_some(&mut self) {
        for vertex in 0..self.graph.vertices.min(GROWN) {
            if marked(&self.graph.open, 0, vertex) {
                self.grow(vertex);
            }
        }
    }

    /// Looks for the clique that counts most, in at most `steps` steps. Whether one was found that counts more than a bound:
    /// [`Cliques::found`] has its tests then. It need not be the best.
    pub fn search(&mut self, more_than: i64, steps: usize) -> bool {
        self.begin(more_than);
        self.grow_some();
        self.colour(0);
        for _ in 0..steps {
            if !self.step() {
                break;
            }
        }
        self.was_found
    }
}
