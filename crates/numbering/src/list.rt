// The mappings of one array, each at its version. Of more than `width` only that is kept.
ghost use Rattle.std.specs.Prelude.{◌≡◌, [], ◌∷◌, ◌+◌, ◌≤◌, length, take};
ghost use Rattle.mappings.specs.Converted.{version_in};
ghost use Rattle.numbering.specs.Lists.{Starts, Grows};
ghost use Rattle.sets.specs.Sets.{width};

use directives::spread::Mapping;
use sets::Set;

// How many versions there are, `width` + 1 for more, and the set of those that the directive at hand gives.
#[derive(Clone, Copy, Debug, PartialEq, Eq)]
pub struct Numbered {
    pub count: usize,
    pub given: Set,
}

// The version of m among the first `count`, or `count` if it is none.
fn number_of(list: &[Mapping], count: usize, m: Mapping) -> usize
    requires { count ≤ length list.now }
    ensures { result ≡ version_in (take count list.now) m }
{
    list[..count]
        .iter()
        .position(|mapping| *mapping == m)
        .unwrap_or(count)
}

// Starts the list with a first mapping.
pub fn start(list: &mut [Mapping], m: Mapping)
    requires { length list.old ≡ width }
    ensures { Starts m list.new }
{
    list[0] = m;
}

// Adds a mapping that the directive at hand gives, if it is not listed.
pub fn add(list: &mut [Mapping], p: Numbered, m: Mapping) -> Numbered
    requires list_len { length list.old ≡ width }
    requires count_bound { p.count ≤ width + 1 }
    ensures { Grows (m ∷ []) list.old p list.new result }
{
    if p.count > sets::WIDTH {
        return p;
    }
    let k = number_of(list, p.count, m);
    if k == sets::WIDTH {
        return Numbered {
            count: sets::WIDTH + 1,
            given: p.given,
        };
    }
    let given = p.given | sets::single(k as u8);
    if k < p.count {
        return Numbered {
            count: p.count,
            given,
        };
    }
    list[k] = m;
    Numbered {
        count: k + 1,
        given,
    }
}
