// What `subst` answers.
mod substituting;

use super::answers::{checked, joined, padded, repeated, replied};
use dlk_replies::{NoReply, Reply};
use std::alloc::{AllocError, Global};
use std::process::Abort;
use std::test::Fail;
