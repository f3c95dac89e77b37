mod by_script;
mod pages;
