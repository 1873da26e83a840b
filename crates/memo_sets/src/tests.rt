mod memos;
mod steps;
