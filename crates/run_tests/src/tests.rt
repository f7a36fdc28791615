//! The tests, and what they are made of.
mod debug_runs;
mod drawn;
mod explanations;
mod files;
mod large_archives;
mod large_images;
mod machine;
mod outputs;
mod runs;
mod sparse_images;
mod system_files;
mod verdicts;
mod words;
