// Assembly, histories' texts, and the program's output.

mod assembly;
mod failing;
mod no_files;
mod program;
mod report;
