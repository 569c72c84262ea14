// Nodes of trees from their parts: those that hold a box or a list. One with a box fails where memory runs out, and lets the
// parts go then.
pub mod expression;
pub mod statement;
