// Mappings, as directives and alignments give them.
ghost use Rattle.std.specs.Prelude.{◌≡◌, ◌<◌};
ghost use Rattle.directives.specs.Directives.{spread_at};
ghost use Rattle.directives.specs.Layout.{templates, arrays, vertices, template_at};
ghost use Rattle.mappings.specs.Along.{turned};
ghost use Rattle.mappings.specs.Computed.{spread_by};
ghost use Rattle.mappings.specs.Rules.{initial_mapping};

use directives::read::Directives;
use directives::spread::Mapping;
use directives::vertex::Directive;

// The two dimensions exchanged, if e is 1.
pub fn turned(e: usize, m: Mapping) -> Mapping
    ensures { result ≡ turned e m }
{
    if e == 1 {
        Mapping {
            first: m.second,
            second: m.first,
        }
    } else {
        m
    }
}

// The spread that vertex u gave template t: that of a redistribute, else the initial one.
pub fn spread_by(directives: &Directives, t: usize, u: usize) -> Mapping
    requires t_bound { t < templates directives.now.bytes }
    requires u_bound { u < vertices directives.now.bytes }
    ensures { result ≡ spread_by directives.now.bytes t u }
{
    match directives.directive(u) {
        Directive::Redistribute(_, m) => m,
        _ => directives.spread(t),
    }
}

// The mapping in which array a starts.
pub fn initial(directives: &Directives, a: usize) -> Mapping
    requires a_bound { a < arrays directives.now.bytes }
    ensures { result ≡ initial_mapping directives.now.bytes a }
{
    let x = directives.alignment(a);
    turned(x.exchanged, directives.spread(x.template))
}
