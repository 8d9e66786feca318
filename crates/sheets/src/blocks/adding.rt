// What a taken entry brings to a query.
ghost use Rattle.std.specs.Prelude.{◌≡◌, ◌<◌, ◌≤◌, false, [], ◌∷◌, ◌++◌, length, Some};
ghost use Rattle.std.specs.Option.{option_map};
ghost use Rattle.bounded.specs.Listed.{latest, revised};
ghost use Rattle.meaning.specs.Spelling.{conditions, links, over_limit, nothing_selected, fresh_inner, fresh_query, with_test, with_link, add_test, with_inner, with_part};
ghost use Rattle.sheets.specs.Held.{inner_of, query_of};

use crate::blocks::{InnerBlock, SheetQuery};
use bounded::Bounded;
use queries::{Link, Nest, Part, Test};

// Tests and links are added each by itself: they go to lists of their own, under limits of their own.
impl InnerBlock {
    fn new(nest: Nest, table: u8) -> InnerBlock
        ensures { inner_of result ≡ fresh_inner nest table }
    {
        InnerBlock {
            nest,
            table,
            tests: Bounded::new(Test::BLANK),
            links: Bounded::new(Link::BLANK),
        }
    }

    fn add_test(&mut self, test: Test)
        requires { length (inner_of self.old).tests < 6 }
        ensures { inner_of self.new ≡ with_test test (inner_of self.old) }
    {
        self.tests.push(test).unwrap();
    }

    fn add_link(&mut self, link: Link)
        requires { length (inner_of self.old).links < 3 }
        ensures { inner_of self.new ≡ with_link link (inner_of self.old) }
    {
        self.links.push(link).unwrap();
    }
}

impl SheetQuery {
    pub(crate) fn new(table: u8) -> SheetQuery
        ensures { query_of result ≡ fresh_query table }
    {
        let blank = InnerBlock::new(Nest::Exists, 0);
        SheetQuery {
            table,
            tests: Bounded::new(Test::BLANK),
            inner: Bounded::new(blank),
            outputs: Bounded::new(0),
        }
    }

    // How many inner blocks there are, which is the number of the current block.
    pub(crate) fn depth(&self) -> usize
        ensures is { result ≡ length (query_of self.now).inner }
        ensures within { result ≤ 3 }
    {
        self.inner.len()
    }

    // The newest inner block, where entries go; None while block 0 is current.
    fn newest(&self) -> Option<InnerBlock>
        ensures { option_map inner_of result ≡ latest (query_of self.now).inner }
    {
        self.inner.last()
    }

    // How many tests and links the current block has.
    fn conditions(&self) -> usize
        ensures { result ≡ conditions (query_of self.now) (latest (query_of self.now).inner) }
    {
        match self.newest() {
            Some(block) => block.tests.len() + block.links.len(),
            None => self.tests.len(),
        }
    }

    // How many links the current block has.
    fn links(&self) -> usize
        ensures { result ≡ links (latest (query_of self.now).inner) }
    {
        self.newest().map_or(0, |block| block.links.len())
    }

    // Whether a part would be one more than a limit.
    pub(crate) fn over_limit(&self, part: Part) -> bool
        ensures { result ≡ over_limit (Some (query_of self.now)) part }
    {
        match part {
            Part::Outermost { .. } | Part::Finished => false,
            Part::Tested { .. } => self.conditions() >= 6,
            Part::Linked { .. } => self.conditions() >= 6 || self.links() >= 3,
            Part::Nested { .. } => 1 + self.depth() >= 4,
            Part::Selected { .. } => self.outputs.len() >= 6,
        }
    }

    // Whether a part would finish the query before an output column is selected.
    pub(crate) fn nothing_selected(&self, part: Part) -> bool
        ensures { result ≡ nothing_selected (Some (query_of self.now)) part }
    {
        match part {
            Part::Finished => self.outputs.len() == 0,
            _ => false,
        }
    }

    // A test goes to the newest inner block, or to block 0 where there is none.
    fn add_test(&mut self, test: Test)
        requires { conditions (query_of self.old) (latest (query_of self.old).inner) < 6 }
        ensures { query_of self.new ≡ add_test test (query_of self.old) (query_of self.old).inner }
    {
        match self.newest() {
            Some(mut block) => {
                block.add_test(test);
                self.inner.set_last(block);
            }
            None => self.tests.push(test).unwrap(),
        }
    }

    fn add_link(&mut self, link: Link)
        requires { links (latest (query_of self.old).inner) < 3 }
        ensures { query_of self.new ≡ with_inner (query_of self.old) (revised (with_link link) (query_of self.old).inner) }
    {
        if let Some(mut block) = self.newest() {
            block.add_link(link);
            self.inner.set_last(block);
        }
    }

    // Adds what a taken entry brings.
    pub(crate) fn add(&mut self, part: Part)
        requires { over_limit (Some (query_of self.old)) part ≡ false }
        ensures { query_of self.new ≡ with_part (query_of self.old) part }
    {
        match part {
            Part::Outermost { .. } | Part::Finished => {}
            Part::Tested { test } => self.add_test(test),
            Part::Linked { link } => self.add_link(link),
            Part::Nested { nest, table } => {
                self.inner.push(InnerBlock::new(nest, table)).unwrap();
            }
            Part::Selected { column } => self.outputs.push(column).unwrap(),
        }
    }
}
