//! Whether the bodies and the actors of an image file fit its names and its class table: each function decides a definition.
mod actors;
mod bodies;
mod frames;
mod messages;
mod objects;
mod values;

pub(crate) use actors::actors_fit;
