// Incremental search: a place is a node of a lent image, and is not tied to one image.
pub use places::{
    Answer, Moved, Place, goto_at, goto_longest_prefix, peek, prefix, prefix_len, query, query_at,
    query_until, query_until_at, resume, value,
};
