//! What no run of the program shows: a number that comes twice, and what a gateway asks for itself. Other scripts are in checks/gateway. What
//! is expected was worked out from the rules.

use crate::scripts::play;

/// A user that left is told nothing, and a later one does not get its reply. A number that was used is not used again.
const LIVES: &str = "\
open 3
send 3 *2;$3;GET;$1;k;
read 3
  0 submitted 1
left 3
open 3
send 3 *1;$4;PING;
read 3
open 4
send 4 *2;$3;DEL;$1;k;
read 4
  0 submitted 2
reply 0 0 1 =v
reply 1 0 1 =v
  0 accepted 1
reply 0 0 2 none
reply 2 0 2 none
  0 accepted 2
  4 :0;
";

/// What is no request, and the end.
const ENDS: &str = "\
open 0
send 0 hello;
read 0
  0 -ERR Protocol error;
  0 closed
send 0 *1;$4;PING;
read 0
open 1
send 1 *1;$4;QUIT;*1;$4;PING;
read 1
  1 +OK;
  1 closed
read 1
idle 0
  0 submitted 1
reply 0 0 1 none
reply 1 0 1 none
  0 accepted 1
";

#[test]
fn replies_are_for_who_asked(rt: HostRuntime) {
    play(&rt, rt.alloc(), 1, 0, LIVES);
}

#[test]
fn what_is_no_request_ends_a_connection(rt: HostRuntime) {
    play(&rt, rt.alloc(), 1, 0, ENDS);
}
