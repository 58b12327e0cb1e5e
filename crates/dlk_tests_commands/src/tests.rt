// What each command answers, and what it writes.
mod answers;
mod check;
mod prove;
mod subst;
mod text;
mod writing;
