// Which array or template a directive concerns, and whether some directive of a file meets a test.
ghost use Rattle.std.specs.Prelude.{◌≡◌, ◌<◌, ℕ, true, false};
ghost use Rattle.directives.specs.Directives.{directive};
ghost use Rattle.directives.specs.Layout.{vertices};
ghost use Rattle.mappings.specs.Computed.{realigns, redistributes, aligns_with};

use directives::read::Directives;
use directives::vertex::Directive;

// Whether it realigns array a.
pub fn realigns(a: usize, d: Directive) -> bool
    ensures { result ≡ realigns a d }
{
    matches!(d, Directive::Realign(b, _) if a == b)
}

// Whether it redistributes template t.
pub fn redistributes(t: usize, d: Directive) -> bool
    ensures { result ≡ redistributes t d }
{
    matches!(d, Directive::Redistribute(s, _) if t == s)
}

// Whether an array that it remaps is then aligned with template t.
pub fn aligns_with(t: usize, d: Directive) -> bool
    ensures { result ≡ aligns_with t d }
{
    match d {
        Directive::Nothing => false,
        Directive::Realign(_, x) => x.template == t,
        Directive::Redistribute(s, _) => s == t,
    }
}

// Whether some directive of the file meets the test.
pub fn any<F: Fn(Directive) -> bool>(directives: &Directives, test: F) -> bool
    requires { F.IsAlwaysCallable test }
    ensures found { result ≡ true
        → (v : ℕ) × (v < vertices directives.now.bytes) × F.post test (directive directives.now.bytes v) true }
    ensures none { result ≡ false
        → (v : ℕ) → v < vertices directives.now.bytes → F.post test (directive directives.now.bytes v) false }
{
    for v in 0..directives.vertices() {
        if test(directives.directive(v)) {
            return true;
        }
    }
    false
}
