// The C interface as a static library: `include/hpf_remap.h` documents it for its users. Each export is the call of `remap`.
#![tactic(auto)]

ghost use Rattle.remap.specs.Interface.{PlannedC, RoundedC, RanC, ConvertedC};

use refusal::Outcome;

#[unsafe(no_mangle)]
pub extern "C" fn hpf_plan(file: &[u8], out: &mut [u8]) -> Outcome
    ensures { PlannedC file.now out.old result out.new }
{
    remap::hpf_plan(file, out)
}

#[unsafe(no_mangle)]
pub extern "C" fn hpf_rounds(file: &[u8], out: &mut [u8]) -> Outcome
    ensures { RoundedC file.now out.old result out.new }
{
    remap::hpf_rounds(file, out)
}

#[unsafe(no_mangle)]
pub extern "C" fn hpf_run(file: &[u8], path: &[u8], out: &mut [u8]) -> Outcome
    ensures { RanC file.now path.now out.old result out.new }
{
    remap::hpf_run(file, path, out)
}

#[unsafe(no_mangle)]
pub extern "C" fn hpf_convert(file: &[u8], out: &mut [u8]) -> Outcome
    ensures { ConvertedC file.now out.old result out.new }
{
    remap::hpf_convert(file, out)
}
