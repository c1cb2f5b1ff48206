//! What the program uses of the system.

use std::io::Input;
use std::rt::Files;

/// The system: its files, standard input and memory.
pub trait System: Files + Input + AllocGlobal + Clone + Drop {}

impl System for HostRuntime {}
