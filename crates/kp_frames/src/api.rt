//! The apis that a producer speaks, each in one version (protocol guide, "Api Keys").

ghost use Rattle.std.specs.Prelude.{◌≡◌, IfErr};
ghost use Rattle.kp_frames.specs.Api.{key_of, version_of, api_with};

use crate::fault::FrameFault;

/// What a request asks for.
#[derive(Clone, Copy, Debug, PartialEq, Eq)]
pub enum Api {
    /// Batches for partitions: key 0, version 3.
    Produce,
    /// Brokers, topics and their partitions: key 3, version 1.
    Metadata,
    /// A producer id: key 22, version 0.
    InitProducerId,
}

impl Api {
    /// The number that stands for the api.
    pub fn key(self) -> i16
        ensures { result ≡ key_of self }
    {
        match self {
            Api::Produce => 0,
            Api::Metadata => 3,
            Api::InitProducerId => 22,
        }
    }

    /// The one version of the api that is spoken here.
    pub fn version(self) -> i16
        ensures { result ≡ version_of self }
    {
        match self {
            Api::Produce => 3,
            Api::Metadata => 1,
            Api::InitProducerId => 0,
        }
    }

    /// The api with this key.
    #[tactic(auto, unfolding(crate::specs::Api::api_with))]
    pub fn from_key(key: i16) -> Result<Api, FrameFault>
        ensures value { result ≡ api_with key }
        ensures unknown { IfErr result (λ fault. fault ≡ FrameFault.UnknownApi) }
    {
        match key {
            0 => Ok(Api::Produce),
            3 => Ok(Api::Metadata),
            22 => Ok(Api::InitProducerId),
            _ => Err(FrameFault::UnknownApi),
        }
    }
}
