// Texts with their trees, and texts with the places where they leave the grammar.

mod faulty;
mod read;
mod shown;
