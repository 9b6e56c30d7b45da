ghost use Rattle.std.specs.Prelude.{◌≡◌, ◌<◌, length};
ghost use Rattle.weighted_pick.specs.Pick.{total_weight};
ghost use Rattle.http_head.specs.Parts.{IsHeadOf};
ghost use Rattle.server_hand.specs.Choosing.{choice_of, choices_of};

use flow_record::Record;
use http_head::HttpHead;
use rule_table::Setup;
use weighted_pick::pick;

/// The choice of a server for the request whose head stands in front of what is held: the server that the draw picks of
/// the first rule that the head matches. None exactly where it matches none. The head is one that was read from `held`.
/// It takes no memory.
#[tactic(auto, unfolding(crate::specs::Choosing::choice_of), using(rule_table::proofs::MatchLemmas::matched_is_rule))]
pub fn choose(setup: &Setup, held: &[u8], head: &HttpHead, draw: u64) -> Option<Record>
    requires { IsHeadOf held.now head.now }
    ensures { result ≡ choice_of setup.now held.now draw }
{
    let rule = setup.matched(held, head)?;
    let server = pick(choices(setup, rule), draw);
    Some(Record::Choice { server, rule })
}

/// The servers and weights of the rule with that number.
fn choices(setup: &Setup, rule: u16) -> &[(u16, u16)]
    requires { rule < length setup.now.rules }
    ensures found { result.now ≡ choices_of setup.now rule }
    ensures weighs { 0 < total_weight result.now }
{
    setup.known();
    let Some(choices) = setup.choices(rule) else {
        unreachable!()
    };
    choices
}
