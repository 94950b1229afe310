//! The row of each thing that is held, and what its columns hold.
pub mod columns;
pub mod day_rows;
pub mod desk_rows;
pub mod entry_rows;
pub mod maps;
pub mod project_rows;
pub mod setting_rows;
pub mod standing_rows;
