//! The graph of tests that exclude each other, as a search for cliques takes it: its vertices are tests, the heaviest first.

use outside::NoMemory;
use std::alloc::Global;
use tables::{
    NONE, fill_items, filled, first_mark, item_or, mark_place, marked, put_item, without_first,
    words_for,
};

/// A test with how light it is; the heavier one is less.
#[derive(Clone, Copy, PartialEq, Eq, PartialOrd, Ord, Drop)]
pub(crate) struct Light {
    /// The weight below zero; the greatest number where the test doesn't count.
    pub lightness: i64,
    /// The place of the test.
    pub test: usize,
}

impl Light {
    /// No test that counts.
    pub const NOTHING: Light = Light {
        lightness: i64::MAX,
        test: NONE,
    };
}

/// The graph.
#[derive(Drop)]
pub(crate) struct Graph {
    /// How many vertices there are.
    pub vertices: usize,
    /// The words of a row of marks of vertices.
    pub words: usize,
    /// For each vertex its test.
    pub test: Vec<usize>,
    /// For each test its vertex, NONE where it is none.
    vertex: Vec<usize>,
    /// For each vertex what it counts in a clique.
    pub weight: Vec<i64>,
    /// For each vertex what it counts where it isn't in the clique and excludes all of it.
    pub beside: Vec<i64>,
    /// Whether any vertex counts beside a clique.
    pub any_beside: bool,
    /// For each vertex a row of marks: the vertices that exclude it.
    pub near: Vec<u64>,
    /// A row of marks: the vertices that may be in a clique.
    pub open: Vec<u64>,
    /// The tests, for sorting.
    light: Vec<Light>,
    /// The words of a row of marks of tests.
    test_words: usize,
}

impl Graph {
    /// Room for the graphs of so many tests. `NoMemory` where memory runs out.
    pub fn new(alloc: Global, tests: usize) -> Result<Graph, NoMemory> {
        let test_words = words_for(tests);
        let room = tests.saturating_mul(test_words);
        let test = filled(alloc, 0usize, tests)?;
        let vertex = filled(alloc, NONE, tests)?;
        let weight = filled(alloc, 0i64, tests)?;
        let beside = filled(alloc, 0i64, tests)?;
        let near = filled(alloc, 0u64, room)?;
        let open = filled(alloc, 0u64, test_words)?;
        let light = filled(alloc, Light::NOTHING, tests)?;
        Ok(Graph {
            vertices: 0,
            words: 0,
            test,
            vertex,
            weight,
            beside,
            any_beside: false,
            near,
            open,
            light,
            test_words,
        })
    }

    /// Sorts the tests of a row of marks to the front, the heaviest first.
    fn sort(&mut self, weights: &[i64], chosen: &[u64]) {
        for test in 0..self.light.len() {
            let mut lightness = i64::MAX;
            if marked(chosen, 0, test) {
                lightness = 0i64.saturating_sub(item_or(weights, test, 0));
            }
            put_item(&mut self.light, test, Light { lightness, test });
        }
        self.light.sort_unstable();
    }

    /// Makes a test the next vertex, where it counts.
    fn number(&mut self, light: Light) {
        if light.lightness == i64::MAX {
            put_item(&mut self.vertex, light.test, NONE);
            return;
        }
        let next = self.vertices;
        put_item(&mut self.vertex, light.test, next);
        put_item(&mut self.test, next, light.test);
        put_item(&mut self.weight, next, 0i64.saturating_sub(light.lightness));
        put_item(&mut self.beside, next, 0);
        self.vertices = next.saturating_add(1);
    }

    /// Numbers the vertices in the order in which the tests are sorted.
    fn number_all(&mut self) {
        self.vertices = 0;
        self.any_beside = false;
        for place in 0..self.light.len() {
            let light = item_or(&self.light, place, Light::NOTHING);
            self.number(light);
        }
        self.words = self.vertices.div_ceil(64);
    }

    /// Marks the vertex of a test in the row that begins at a word.
    fn join(&mut self, from: usize, test: usize) {
        let other = item_or(&self.vertex, test, NONE);
        if other != NONE {
            mark_place(&mut self.near, from, other);
        }
    }

    /// Marks the vertices of a word of tests in the row that begins at a word.
    fn join_word(&mut self, from: usize, word: usize, marks: u64) {
        let mut left = marks;
        for _ in 0..64 {
            if left == 0 {
                return;
            }
            self.join(from, first_mark(word, left));
            left = without_first(left);
        }
    }

    /// Marks the vertices that exclude a vertex. `rows` has a row of marks for each test: the tests that it excludes.
    fn join_all(&mut self, rows: &[u64], vertex: usize) {
        let from = vertex.saturating_mul(self.words);
        let row = item_or(&self.test, vertex, 0).saturating_mul(self.test_words);
        for word in 0..self.test_words {
            let marks = item_or(rows, row.saturating_add(word), 0);
            self.join_word(from, word, marks);
        }
    }

    /// Unmarks all in the rows of the vertices.
    fn separate_all(&mut self) {
        for word in 0..self.vertices.saturating_mul(self.words) {
            put_item(&mut self.near, word, 0);
        }
    }

    /// Marks for each vertex those that exclude it.
    fn connect(&mut self, rows: &[u64]) {
        self.separate_all();
        for vertex in 0..self.vertices {
            self.join_all(rows, vertex);
        }
    }

    /// Marks the vertices that may be in a clique: those of the tests of a row of marks.
    fn open_tests(&mut self, tests: &[u64]) {
        fill_items(&mut self.open, 0);
        for vertex in 0..self.vertices {
            if marked(tests, 0, item_or(&self.test, vertex, NONE)) {
                mark_place(&mut self.open, 0, vertex);
            }
        }
    }

    /// Becomes the graph of the tests of a row of marks; those of another row may be in a clique. `rows` has a row of marks for each
    /// test: the tests that it excludes.
    pub fn set(&mut self, rows: &[u64], weights: &[i64], tests: &[u64], open: &[u64]) {
        self.sort(weights, tests);
        self.number_all();
        self.connect(rows);
        self.open_tests(open);
    }

    /// Says what tests count beside a clique: it stands in `counts`, test by test, from the place `from` on.
    pub fn set_beside(&mut self, counts: &[i64], from: usize) {
        self.any_beside = false;
        for vertex in 0..self.vertices {
            let test = item_or(&self.test, vertex, NONE);
            let count = item_or(counts, from.saturating_add(test), 0);
            put_item(&mut self.beside, vertex, count);
            if count > 0 {
                self.any_beside = true;
            }
        }
    }
}
