mod chance;
mod markup;
mod pictures;
mod stories;
