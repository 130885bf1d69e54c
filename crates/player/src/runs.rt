// What holds of every list of calls, whatever the feeds and the sinks are.
ghost use Rattle.player.specs.Values.{StopsChangeNoValue, ValuesHold};

use event::{Feed, Sink};

// What holds of every list of calls on two players, the one with feeds F and a sink S, the other with feeds G and a sink T.
pub fn runs_hold<F: Feed, G: Feed, S: Sink, T: Sink>()
    ensures stops_change_nothing { StopsChangeNoValue F.coming G.coming S.held T.held }
    ensures first_holds { ValuesHold F.coming S.held }
    ensures second_holds { ValuesHold G.coming T.held }
{}
