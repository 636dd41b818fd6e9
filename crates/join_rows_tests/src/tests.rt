mod both;
mod made;
mod numbers;
mod reading;
mod real;
mod sharing;
mod sinks;
