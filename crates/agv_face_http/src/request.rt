//! Requests: finding the request that the bytes of a stream begin with, by the lines of a head and the length that they
//! give the body (`specs/request/Requests.antt`). `next` finds it in the bytes that have arrived, and `heard` returns
//! it with its method.

pub(crate) mod connection;
pub(crate) mod heard;
pub(crate) mod lines;
pub(crate) mod next;
