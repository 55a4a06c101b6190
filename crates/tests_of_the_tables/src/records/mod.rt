mod items;
mod queries;
mod registry;
mod submissions;
