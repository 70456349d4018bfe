// What the C interface answers: each call is the proved call, its answer given in numbers. `remap_c` exports it.
#![tactic(auto)]

ghost use Rattle.remap.specs.Interface.{PlannedC, RoundedC, RanC, ConvertedC};

use refusal::Outcome;

pub fn hpf_plan(file: &[u8], out: &mut [u8]) -> Outcome
    ensures { PlannedC file.now out.old result out.new }
{
    Outcome::from(plan::plan(file, out))
}

pub fn hpf_rounds(file: &[u8], out: &mut [u8]) -> Outcome
    ensures { RoundedC file.now out.old result out.new }
{
    Outcome::from(rounds::rounds(file, out))
}

pub fn hpf_run(file: &[u8], path: &[u8], out: &mut [u8]) -> Outcome
    ensures { RanC file.now path.now out.old result out.new }
{
    Outcome::from(run::run(file, path, out))
}

pub fn hpf_convert(file: &[u8], out: &mut [u8]) -> Outcome
    ensures { ConvertedC file.now out.old result out.new }
{
    Outcome::from(convert::convert(file, out))
}
