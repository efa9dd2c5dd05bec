// Refusals of documents that are no configuration.
use std::alloc::AllocError;
use thiserror::Error;
use toml::de;

/// Why bytes are no configuration.
#[derive(Clone, Copy, Debug, PartialEq, Eq, Error)]
pub enum ConfigError {
    /// The number of the first rule that they break.
    #[error("the configuration breaks rule {0}")]
    Rule(u32),
    /// Memory ran out.
    #[error("there is no memory for the configuration")]
    Memory,
}

impl From<AllocError> for ConfigError {
    ghost use Rattle.std.specs.Prelude.{◌≡◌};
    ghost use Rattle.acct_config.specs.declared.errors.ConfigError.TheVariants.{Memory};

    ghost from_gives = { λ _ error. error ≡ Memory };

    fn from(_error: AllocError) -> Self {
        ConfigError::Memory
    }
}

/// A text that is no document breaks rule 0.
impl From<de::Error> for ConfigError {
    ghost use Rattle.std.specs.Prelude.{◌≡◌};
    ghost use Rattle.toml.specs.Errors.{IsMemory};
    ghost use Rattle.acct_config.specs.declared.errors.ConfigError.TheVariants.{Memory};
    ghost use Rattle.acct_config.specs.Errors.{IfRule};

    ghost from_gives = { λ given error.
        IfRule error (λ number. (number ≡ 0) × (¬ IsMemory given)) × (error ≡ Memory → IsMemory given) };

    fn from(error: de::Error) -> Self {
        if error.is_memory() {
            ConfigError::Memory
        } else {
            ConfigError::Rule(0)
        }
    }
}
