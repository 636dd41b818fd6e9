mod meanings;
mod places;
mod sentences;
