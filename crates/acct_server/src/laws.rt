// The laws of a replay, for readers and for the crates above to cite. Each is brought in by a call, which does nothing.
ghost use Rattle.acct_server.specs.Replaying.{CutsChangeNothing};

use rpc_session::streams_are_cut_anywhere;

/// However the lines cut what comes on a connection changes none of its calls and no byte that is sent on it, but where
/// the lines stand.
pub fn cuts_change_nothing()
    ensures { CutsChangeNothing }
{
    streams_are_cut_anywhere();
}
