mod expressions;
mod memos;
mod plans;
mod trees;
