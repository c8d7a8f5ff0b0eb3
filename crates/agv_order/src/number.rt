//! The sequence numbers of nodes and edges in an order (VDA 5050 2.0, sequenceId), which they share:
//! even for nodes and odd for edges.
ghost use Rattle.std.specs.Prelude.{◌≡◌, ◌+◌, ◌*◌, ◌<◌, ◌^◌};

/// Returns the sequence number of the node at place `k` of the way.
pub fn node_seq(k: u32) -> u32
    requires { 2 * k < 2 ^ 32 }
    ensures { result ≡ 2 * k }
{
    2 * k
}

/// Returns the sequence number of the edge from the node at place `k` to the next.
pub fn edge_seq(k: u32) -> u32
    requires { 2 * k + 1 < 2 ^ 32 }
    ensures { result ≡ 2 * k + 1 }
{
    2 * k + 1
}
