//! Configurations in files.

use crate::config::{Config, explained};
use crate::config_fault::ConfigFault;
use std::alloc::{AllocError, Global};
use std::{fs, io};
use thiserror::Error;

/// Why a file gave no configuration; what is wrong in it stands in lines for whoever wrote it.
#[derive(Debug, Drop, Error)]
pub enum ConfigFileFault {
    #[error("the configuration cannot be read: {0}")]
    Read(io::Error),
    #[error("in the configuration: {1}")]
    Config(ConfigFault, String),
    #[error("out of memory")]
    Memory(#[from] AllocError),
}

impl ConfigFileFault {
    /// Whether the configuration is at fault. A file that is no text is a bad one, and no file that can't be read.
    pub fn is_bad_configuration(&self) -> bool {
        match self {
            ConfigFileFault::Read(error) => error.kind() == io::ErrorKind::InvalidData,
            ConfigFileFault::Config(fault, _) => !fault.is_memory(),
            ConfigFileFault::Memory(_) => false,
        }
    }
}

/// The configuration in the file at this path. `Read` where it can't be read, or is no text; `Config` where it is no
/// configuration, with lines that tell why. Or `Memory`.
pub fn config_at(rt: &HostRuntime, path: &str) -> Result<Config, ConfigFileFault> {
    match fs::read_to_string(rt, path) {
        Ok(text) => config_in(rt.alloc(), text.as_str()),
        Err(error) => Err(ConfigFileFault::Read(error)),
    }
}

fn config_in(alloc: Global, text: &str) -> Result<Config, ConfigFileFault> {
    match Config::from_toml(alloc, text) {
        Ok(config) => Ok(config),
        Err(fault) => Err(with_lines(alloc, text, fault)),
    }
}

fn with_lines(alloc: Global, text: &str, fault: ConfigFault) -> ConfigFileFault {
    match explained(alloc, text, &fault) {
        Ok(lines) => ConfigFileFault::Config(fault, lines),
        Err(refused) => ConfigFileFault::Memory(refused),
    }
}
