//! What the core knows of its history, part by part. Each part takes note of every event.

pub(crate) mod book;
pub(crate) mod cargo;
pub(crate) mod clients;
pub(crate) mod counts;
pub(crate) mod dispatch;
pub(crate) mod filing;
pub(crate) mod journaling;
pub(crate) mod medium;
pub(crate) mod money;
pub(crate) mod ordered;
pub(crate) mod page_set;
pub(crate) mod pages;
pub(crate) mod service;
pub(crate) mod syncs;
pub(crate) mod time;
