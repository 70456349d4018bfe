// What the directive at a vertex gives an array.
ghost use Rattle.std.specs.Prelude.{◌≡◌, cond, [], ◌∷◌, ◌+◌, ◌*◌, ◌≤◌, ◌<◌, length, get_or};
ghost use Rattle.words.specs.Tables.{rows};
ghost use Rattle.directives.specs.Directives.{directive};
ghost use Rattle.directives.specs.Layout.{arrays, vertices};
ghost use Rattle.directives.specs.declared.vertex.Directive.TheVariants.{Realign};
ghost use Rattle.mappings.specs.Along.{turned};
ghost use Rattle.mappings.specs.Computed.{spread_sets, given_by, given_to};
ghost use Rattle.mappings.specs.Tables.{Alignments, Spreads};
ghost use Rattle.numbering.specs.Lists.{Grows};
ghost use Rattle.sets.specs.Sets.{width, has};

use crate::list::Numbered;
use crate::{list, mapping};
use directives::array::Alignment;
use directives::read::Directives;
use directives::spread::Mapping;
use directives::vertex::Directive;
use sets::{Half, Set};

// Whether some path brings the template of the realign at v with the spread that vertex u gave it.
fn is_brought(
    directives: &Directives,
    a: usize,
    v: usize,
    x: Alignment,
    spreads: &[Set],
    u: usize,
) -> bool
    requires v_bound { v < vertices directives.now.bytes }
    requires u_bound { u < vertices directives.now.bytes }
    requires v_value { directive directives.now.bytes v ≡ Realign a x }
    requires spreads { Spreads directives.now.bytes spreads.now }
    ensures { result ≡ has (get_or (spread_sets directives.now.bytes x.template) v 0) u }
{
    let at = flow::COLUMNS * v + u / sets::WIDTH;
    sets::member(spreads[at], (u % sets::WIDTH) as u8)
}

// Adds what the realign of array a at vertex v gives: each spread that a path brings, exchanged if the alignment is.
fn realigned(
    directives: &Directives,
    a: usize,
    v: usize,
    x: Alignment,
    spreads: &[Set],
    list: &mut [Mapping],
    p: Numbered,
) -> Numbered
    requires v_bound { v < vertices directives.now.bytes }
    requires v_value { directive directives.now.bytes v ≡ Realign a x }
    requires spreads { Spreads directives.now.bytes spreads.now }
    requires list_len { length list.old ≡ width }
    requires count_bound { p.count ≤ width + 1 }
    ensures { Grows (given_by directives.now.bytes a v (Realign a x)) list.old p list.new result }
{
    let mut q = p;
    for u in 0..directives.vertices() {
        if is_brought(directives, a, v, x, spreads, u) {
            q = list::add(
                list,
                q,
                mapping::turned(x.exchanged, mapping::spread_by(directives, x.template, u)),
            );
        }
    }
    q
}

// Adds a spread by those alignments of a set that have template t: straight, exchanged.
fn redistributed(t: usize, m: Mapping, aligned: Set, list: &mut [Mapping], p: Numbered) -> Numbered
    requires t_bound { t < 8 }
    requires list_len { length list.old ≡ width }
    requires count_bound { p.count ≤ width + 1 }
    ensures { Grows (rows (λ e. cond (has aligned (2 * t + e)) (turned e m ∷ []) []) 2) list.old p list.new result }
{
    let mut q = p;
    for e in 0..2 {
        if sets::member(aligned, (2 * t + e) as u8) {
            q = list::add(list, q, mapping::turned(e, m));
        }
    }
    q
}

// Adds what the directive at vertex v gives array a.
pub fn add(
    directives: &Directives,
    a: usize,
    v: usize,
    aligned: &[Half],
    spreads: &[Set],
    list: &mut [Mapping],
    count: usize,
) -> Numbered
    requires a_bound { a < arrays directives.now.bytes }
    requires v_bound { v < vertices directives.now.bytes }
    requires alignments { Alignments directives.now.bytes aligned.now }
    requires spreads { Spreads directives.now.bytes spreads.now }
    requires list_len { length list.old ≡ width }
    requires count_bound { count ≤ width + 1 }
    ensures { Grows (given_to directives.now.bytes a v) list.old (record { count = count; given = 0 }) list.new result }
{
    let p = Numbered { count, given: 0 };
    match directives.directive(v) {
        Directive::Redistribute(t, m) => {
            let at = flow::COLUMNS * v + a;
            redistributed(t, m, aligned[at] as Set, list, p)
        }
        Directive::Realign(b, x) if a == b => realigned(directives, a, v, x, spreads, list, p),
        _ => p,
    }
}
