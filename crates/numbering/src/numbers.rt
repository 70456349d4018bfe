// Refusal 41, with the versions that directives give and how many each array has.
ghost use Rattle.std.specs.Prelude.{◌≡◌, ◌*◌, ◌<◌, length};
ghost use Rattle.directives.specs.Layout.{arrays, vertices};
ghost use Rattle.mappings.specs.Computed.{check41};
ghost use Rattle.mappings.specs.Tables.{Alignments, Spreads};
ghost use Rattle.numbering.specs.Lists.{ColumnNumbered, AllNumbered};
ghost use Rattle.sets.specs.Sets.{width};

use crate::{given, list, mapping};
use directives::read::Directives;
use directives::spread::Mapping;
use refusal::Refusal;
use sets::{Half, Set};

// Numbers the mappings of array a: its column of `given`. Returns how many there are, `width` + 1 for more. `list` is a work slice.
fn number_with(
    directives: &Directives,
    a: usize,
    aligned: &[Half],
    spreads: &[Set],
    given: &mut [Set],
    list: &mut [Mapping],
) -> usize
    requires a_bound { a < arrays directives.now.bytes }
    requires alignments { Alignments directives.now.bytes aligned.now }
    requires spreads { Spreads directives.now.bytes spreads.now }
    requires given_len { length given.old ≡ 8 * vertices directives.now.bytes }
    requires list_len { length list.old ≡ width }
    ensures { ColumnNumbered directives.now.bytes a given.old result given.new }
{
    list::start(list, mapping::initial(directives, a));
    let mut count: usize = 1;
    for v in 0..directives.vertices() {
        let p = given::add(directives, a, v, aligned, spreads, list, count);
        let at = flow::COLUMNS * v + a;
        given[at] = p.given;
        count = p.count;
    }
    count
}

// The same with a list of its own.
fn number_array(
    directives: &Directives,
    a: usize,
    aligned: &[Half],
    spreads: &[Set],
    given: &mut [Set],
) -> usize
    requires a_bound { a < arrays directives.now.bytes }
    requires alignments { Alignments directives.now.bytes aligned.now }
    requires spreads { Spreads directives.now.bytes spreads.now }
    requires given_len { length given.old ≡ 8 * vertices directives.now.bytes }
    ensures { ColumnNumbered directives.now.bytes a given.old result given.new }
{
    let nothing = Mapping {
        first: 0,
        second: 0,
    };
    let mut list = [nothing; sets::WIDTH];
    number_with(directives, a, aligned, spreads, given, &mut list)
}

// Refusal 41. Where it passes, `given` is left with the versions that directives give, `counts` with the number of each array's.
pub fn check(
    directives: &Directives,
    aligned: &[Half],
    spreads: &[Set],
    given: &mut [Set],
    counts: &mut [u8],
) -> Result<(), Refusal>
    requires alignments { Alignments directives.now.bytes aligned.now }
    requires spreads { Spreads directives.now.bytes spreads.now }
    requires given_len { length given.old ≡ 8 * vertices directives.now.bytes }
    requires counts_len { length counts.old ≡ 8 }
    ensures value { result ≡ check41 directives.now.bytes }
    ensures all_numbered { AllNumbered directives.now.bytes result given.new counts.new }
{
    for a in 0..directives.arrays() {
        let count = number_array(directives, a, aligned, spreads, given);
        if count > sets::WIDTH {
            return Err(Refusal::TooManyMappings { array: a });
        }
        counts[a] = count as u8;
    }
    Ok(())
}
