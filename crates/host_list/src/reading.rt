ghost use Rattle.std.specs.Prelude.{◌≡◌, Ok, Err, MatchResult, length};
ghost use Rattle.host_list.specs.Reading.{completed, list_of, nothing, with_lines};
ghost use Rattle.host_list.specs.Words.{lines_of};

use crate::counts::{any_hole, counts_of};
use crate::found::Found;
use crate::list::HostList;
use crate::rule::{Refusal, Rule};
use crate::words::cut_line;

/// What the lines of a text say, and how many there are.
fn lines_in(text: &[u8]) -> Result<(Found, usize), Refusal>
    ensures { let lines = lines_of text.now in
        MatchResult result
        (λ p. (with_lines nothing 1 lines ≡ Ok p.0) × (p.1 ≡ length lines))
        (λ refusal. with_lines nothing 1 lines ≡ Err refusal) }
{
    let mut found = Found::nothing();
    let mut count: usize = 0;
    let mut left = Some(text);
    while let Some(rest) = left {
        let (line, more) = cut_line(rest);
        left = more;
        count += 1;
        match found.with_line(line) {
            Ok(with_line) => found = with_line,
            Err(rule) => return Err(Refusal { line: count, rule }),
        }
    }
    Ok((found, count))
}

/// The list, if what was found is complete.
fn completed(found: &Found) -> Result<HostList, Rule>
    ensures { result ≡ completed found.now }
{
    let Some(cluster) = found.cluster else {
        return Err(Rule::NoCluster);
    };
    if any_hole(&found.addresses) {
        return Err(Rule::Hole);
    }
    let Some(config) = counts_of(&found.addresses) else {
        return Err(Rule::WrongCount);
    };
    Ok(HostList {
        cluster,
        config,
        addresses: found.addresses,
    })
}

/// The list of hosts that a text is, or the first line that breaks a rule.
#[tactic(auto, unfolding(crate::specs::Reading::list_of))]
pub fn read(text: &[u8]) -> Result<HostList, Refusal>
    ensures { result ≡ list_of text.now }
{
    let (found, count) = lines_in(text)?;
    match completed(&found) {
        Ok(list) => Ok(list),
        Err(rule) => Err(Refusal { line: count, rule }),
    }
}
