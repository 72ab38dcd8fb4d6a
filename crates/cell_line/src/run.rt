// Equal grants that follow one another, read.
ghost use Rattle.std.specs.Prelude.{◌≡◌, ◌≢◌, ℕ, ◌≤◌, IfOk, MatchResult, decimal};
ghost use Rattle.readable.specs.Shown.{grant_name, run_text};

use crate::parse::value::{Value, number};
use crate::wanted::Wanted;
use field::grant::Grant;
use readable::run::Run;

fn grant(name: &str) -> Result<Grant, Wanted>
    ensures { MatchResult result (λ grant. grant_name grant ≡ name.now) (λ wanted. (wanted ≡ Wanted.GrantName) × ((grant : Grant) → grant_name grant ≢ name.now)) }
{
    match name {
        "ranging" => Ok(Grant::Ranging),
        "unassigned" => Ok(Grant::Unassigned),
        "idle" => Ok(Grant::Idle),
        code => Value::read(code).map(Grant::Code).ok_or(Wanted::GrantName),
    }
}

// The length of a run that is longer than one grant.
fn length(text: &str) -> Result<usize, Wanted>
    ensures { MatchResult result (λ n. (2 ≤ n) × (n ≤ 27) × (decimal n ≡ text.now)) (λ wanted. (wanted ≡ Wanted.RunLength) × ((n : ℕ) → 2 ≤ n → n ≤ 27 → decimal n ≢ text.now)) }
{
    match number(text) {
        Some(count) if 2 <= count && count <= 27 => Ok(count as usize),
        _ => Err(Wanted::RunLength),
    }
}

// A run from its text, as `5*3`.
pub(crate) fn read_run(text: &str) -> Result<Run, Wanted>
    ensures { IfOk result (λ run. (1 ≤ run.count) × (run.count ≤ 27) × (run_text run.grant run.count ≡ text.now)) }
{
    match text.split_once('*') {
        None => Ok(Run {
            grant: grant(text)?,
            count: 1,
        }),
        Some((name, count)) => Ok(Run {
            grant: grant(name)?,
            count: length(count)?,
        }),
    }
}
