//! Commands: their words, what they answer, and why they are refused.
//!
//! A [`Command`] is the words that it was given in. [`read_words`] gives the command that words are, or the place of their
//! first fault; [`read_line`] does so for a line of a batch. An [`Answer`] and a [`Refusal`] are what a command replies, and
//! [`answer_text`] and [`refusal_text`] print them. All three are defined by printing: what the words of each command are,
//! and what the lines of each answer and of each refusal are. The crate that carries commands out stands on this one.
#![tactic(auto)]

mod answer;
mod appending;
mod arguments;
mod asked;
mod attach_options;
mod attaching;
mod command;
mod extension_refusals;
mod hierarchies;
mod images;
mod keyword;
pub mod laws;
mod line;
mod mark_replies;
mod marks;
mod numbers;
mod portable;
mod readers;
mod refusal;
mod replies;
mod resource;
mod service_replies;
mod services;
mod update_replies;
mod updates;
mod views;
mod words;
mod words_left;

pub use answer::{
    Answer, FeatureItem, FeatureItems, Item, ItemKind, Items, Presence, ServiceItem, ServiceItems,
    ServiceKind, VersionItem, VersionItems,
};
pub use asked::{ask_of, extensions_of};
pub use command::{Chosen, Command, MOST_MARKS, UpdateVerb, ViewCommand, kept_marks};
pub use line::read_line;
pub use portable::{AttachOption, AttachOptions, AttachRest, AttachWord, AttachWords, PortCommand};
pub use refusal::{Refusal, number, refusal_text, transfer_fault_word};
pub use replies::answer_text;
pub use resource::Resource;
pub use words::{CmdErr, read_words};
