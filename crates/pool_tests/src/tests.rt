mod boards;
mod crews;
mod fixtures;
mod harvests;
mod shelves;
