//! How many cases there are.
ghost use Rattle.std.specs.Prelude.{◌≡◌, ◌<◌, ◌≤◌, ◌+◌, ◌*◌, ◌^◌, List, length, nat_lt, if◌then◌else◌};
ghost use Rattle.survey_laws.specs.declared.fault.Fault.{Fault};
ghost use Rattle.survey_text.specs.Cases.{cases_of};

// The sum of these, as far as there are cases of so many faults.
fn total(ones: u128, pairs: u128, triples: u128, most: usize) -> u128
    requires ones { ones < 2 ^ 32 }
    requires pairs { pairs ≤ 4294967296 * 4294967296 }
    requires triples { triples ≤ 4294967296 * (4294967296 * 4294967296) }
    ensures { result ≡ (if nat_lt most 2 then ones else if nat_lt most 3 then ones + pairs else ones + (pairs + triples)) }
{
    if most < 2 {
        ones
    } else if most < 3 {
        ones + pairs
    } else {
        ones + (pairs + triples)
    }
}

/// How many cases there are of one fault, and of up to so many, of these faults.
#[tactic(auto, using(crate::proofs::CaseLemmas::case_steps))]
pub fn count_cases(faults: u64, most: usize) -> u128
    requires { faults < 2 ^ 32 }
    ensures { (list : List Fault) → length list ≡ faults → result ≡ length (cases_of most list) }
{
    let mut pairs = 0u128;
    let mut triples = 0u128;
    for count in 0..faults {
        triples += pairs;
        pairs += u128::from(count);
    }
    total(u128::from(faults), pairs, triples, most)
}
