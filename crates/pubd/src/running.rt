//! What runs for as long as the server does, and its end.

pub(crate) mod beginning;
pub(crate) mod data_folder;
pub(crate) mod descriptors;
pub(crate) mod ending;
pub(crate) mod host;
pub(crate) mod inspecting;
pub(crate) mod opening;
pub(crate) mod scripts;
pub(crate) mod serving;
pub(crate) mod termination;
pub(crate) mod told_change;
