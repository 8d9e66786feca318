// Filling a bench.
ghost use Rattle.std.specs.Prelude.{◌≡◌, [], is_ok, if◌then◌else◌};
ghost use Rattle.sources.specs.Benches.{heads_verdict, bench_verdict};

use crate::bench::Bench;
use crate::head::TableHead;
use crate::ranges::check_range;
use terms::{Cell, Fault};

impl<'a> Bench<'a> {
    // A bench with no table, whose meter stands at 0.
    pub fn empty() -> Self
        ensures heads { result.heads.now ≡ [] }
        ensures cells { result.cells.now ≡ [] }
        ensures meter { result.meter ≡ 0 }
    {
        Bench {
            heads: &[],
            cells: &[],
            meter: 0,
        }
    }

    // Puts other tables onto the bench; its meter runs on. A refused load leaves the bench as it was.
    pub fn load(&mut self, heads: &'a [TableHead], cells: &'a [Cell]) -> Result<(), Fault>
        ensures answer { result ≡ bench_verdict heads.now cells.now }
        ensures heads { self.new.heads.now ≡ (if is_ok result then heads.now else self.old.heads.now) }
        ensures cells { self.new.cells.now ≡ (if is_ok result then cells.now else self.old.cells.now) }
        ensures meter { self.new.meter ≡ self.old.meter }
    {
        check_heads(heads, cells.len())?;
        check_range(cells);
        *self = Bench {
            heads,
            cells,
            meter: self.meter,
        };
        Ok(())
    }
}

fn check_heads(heads: &[TableHead], len: usize) -> Result<(), Fault>
    ensures { result ≡ heads_verdict len 0 heads.now }
{
    for (at, head) in heads.iter().enumerate() {
        Fault::placed(head.check(len), at)?;
    }
    Ok(())
}
